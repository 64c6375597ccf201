// The statements of the target language that give a temporary a value or test it.

#![tactic(auto)]

ghost use Rattle.std.specs.Prelude.{◌≡◌, suc, ◌+◌, ◌<◌, Err};
ghost use Rattle.rules.specs.Sizes.{temporary_count};
ghost use Rattle.rules.specs.Kinds.{statement, target};
ghost use Rattle.rules.specs.Records.{kind_of, mark_of, child_c};
ghost use Rattle.rules.specs.Nodes.{HasSort};
ghost use Rattle.rules.specs.Memory.{on_value};
ghost use Rattle.rules.specs.Evaluation.{operated, opposite, condition};
ghost use Rattle.rules.specs.Observation.{live_record, query_observation};
ghost use Rattle.rules.specs.Watched.{held_in};
ghost use Rattle.rules.specs.Layout.{observation_of};
ghost use Rattle.evaluation_temporaries.specs.Bytes.{temporaries_of};
ghost use Rattle.watched_steps.specs.Steps.{Takes, IsTake, taken_of};

use rules::{Evaluated, ObservationMemory, Operator, Query, Stop, Table, Temporaries, Test, Value};
use value_operators::Liveness;

// The blocks of the observation memory, of which an operator asks whether they are recorded live.
#[derive(Clone, Copy)]
struct Blocks<'a>(&'a ObservationMemory);

impl Liveness for Blocks<'_> {
    ghost live = { λ blocks name. live_record (observation_of blocks.0.now) name };

    fn is_live(&self, name: u16) -> bool {
        observation::is_live(self.0, name)
    }
}

// 60, 61: temporary n takes a value; nothing changes where there is none.
pub fn take_evaluated(temporaries: &mut Temporaries, n: usize, e: Evaluated) -> Result<(), Stop>
    requires { n < temporary_count }
    ensures { Takes temporaries.old temporaries.new result n e }
{
    evaluation_temporaries::take(temporaries, n, e?);
    Ok(())
}

// 63: temporary n takes what an operator gives of the two after it.
fn take_operation(
    temporaries: &mut Temporaries,
    obs: &ObservationMemory,
    n: usize,
    operator: Operator,
) -> Result<(), Stop>
    requires { n + 2 < temporary_count }
    ensures { Takes temporaries.old temporaries.new result n
        (operated (live_record (observation_of obs.now)) operator
        (held_in (temporaries_of temporaries.old) (suc n))
        (held_in (temporaries_of temporaries.old) (suc (suc n)))) }
{
    let a = evaluation_temporaries::read_temporary(&*temporaries, n + 1)?;
    let b = evaluation_temporaries::read_temporary(&*temporaries, n + 2)?;
    let given = value_operators::operate_where(&Blocks(obs), operator, a, b);
    take_evaluated(temporaries, n, given)
}

// What is asked of a value.
fn query(obs: &ObservationMemory, asked: Query, v: Value) -> Evaluated
    ensures { result ≡ query_observation asked (observation_of obs.now) v }
{
    match asked {
        Query::Valid => observation::is_valid(obs, v),
        Query::Initialised => observation::is_initialised(obs, v),
        Query::Base => observation::base_address(obs, v),
        Query::Offset => observation::offset(obs, v),
        Query::BlockLength => observation::block_length(obs, v),
    }
}

// 64: temporary n takes what is asked of the one after it.
fn take_query(
    temporaries: &mut Temporaries,
    obs: &ObservationMemory,
    n: usize,
    asked: Query,
) -> Result<(), Stop>
    requires { n + 1 < temporary_count }
    ensures { Takes temporaries.old temporaries.new result n
        (on_value (held_in (temporaries_of temporaries.old) (suc n)) Err
        (query_observation asked (observation_of obs.now))) }
{
    let pointer = evaluation_temporaries::read_temporary(&*temporaries, n + 1)?;
    take_evaluated(temporaries, n, query(obs, asked, pointer))
}

// 65: temporary n takes 1 where the one after it is 0, else 0.
fn take_not(temporaries: &mut Temporaries, n: usize) -> Result<(), Stop>
    requires { n + 1 < temporary_count }
    ensures { Takes temporaries.old temporaries.new result n
        (on_value (held_in (temporaries_of temporaries.old) (suc n)) Err opposite) }
{
    let truth = evaluation_temporaries::read_temporary(&*temporaries, n + 1)?;
    take_evaluated(temporaries, n, value::negate(truth))
}

// 63 to 65: the temporary of record n takes what those after it give.
pub fn take(
    table: &Table,
    n: usize,
    temporaries: &mut Temporaries,
    obs: &ObservationMemory,
) -> Result<(), Stop>
    requires { HasSort target statement table.now n × IsTake (kind_of table.now n) }
    ensures { Takes temporaries.old temporaries.new result (mark_of table.now n)
        (taken_of (kind_of table.now n) (child_c table.now n)
        (temporaries_of temporaries.old) (mark_of table.now n)
        (observation_of obs.now)) }
{
    let kind = table::kind(&table[..], n);
    let first = table::mark(&table[..], n) as usize;
    let chosen = table::child_c(&table[..], n) as u8;
    match kind {
        63 => take_operation(temporaries, obs, first, Operator::from(chosen)),
        64 => take_query(temporaries, obs, first, Query::from(chosen)),
        _ => take_not(temporaries, first),
    }
}

// 66, 67: what temporary n says as a condition.
#[tactic(auto, using(value::proofs::TestLaws::tests_condition))]
pub fn test_temporary(temporaries: &Temporaries, n: usize) -> Test
    requires { n < temporary_count }
    ensures { result ≡ condition (held_in (temporaries_of temporaries.now) n) }
{
    value::test(evaluation_temporaries::read_temporary(temporaries, n))
}
