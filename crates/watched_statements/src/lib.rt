// The statements of the target language that run no other.

#![tactic(auto)]

ghost use Rattle.std.specs.Prelude.{◌≡◌};
ghost use Rattle.rules.specs.Kinds.{statement, target};
ghost use Rattle.rules.specs.Records.{kind_of, mark_of, child_a, child_b};
ghost use Rattle.rules.specs.Memory.{assigned, allocated, freed};
ghost use Rattle.rules.specs.Evaluation.{address_of, condition};
ghost use Rattle.rules.specs.Watched.{held_in};
ghost use Rattle.rules.specs.Layout.{memory_of};
ghost use Rattle.rules.specs.Nodes.{HasSort};
ghost use Rattle.memory_counts.specs.Counted.{Counted};
ghost use Rattle.evaluation.specs.State.{variables_of};
ghost use Rattle.evaluation_temporaries.specs.Bytes.{temporaries_of};
ghost use Rattle.run_children.specs.Children.{found_in, value_in};
ghost use Rattle.run_endings.specs.Ending.{asserted_true};
ghost use Rattle.run_changes.specs.Changing.{Does};
ghost use Rattle.watched_steps.specs.Steps.{Takes};
ghost use Rattle.watched_statements.specs.Watching.{lent, Beside, Ready, IsAct, Runs, Acts};

use rules::{
    Counts, ExecutionMemory, MarkOwners, ObservationMemory, Stop, Table, Temporaries, Variables,
};
use run_endings::Ended;

// 41: place A takes expression B.
fn assign(
    table: &Table,
    n: usize,
    variables: &Variables,
    temporaries: &Temporaries,
    mem: &mut ExecutionMemory,
) -> Result<(), Stop>
    requires { HasSort target statement table.now n × (kind_of table.now n ≡ 41) }
    ensures { Does (assigned (memory_of mem.old)
        (found_in table.now (child_a table.now n) variables.now
        temporaries.now mem.old)
        (value_in table.now (child_b table.now n) variables.now
        temporaries.now mem.old))
        result mem.old mem.new }
{
    let place = run_children::find_a(table, n, variables, temporaries, &*mem);
    let value = run_children::evaluate_b(table, n, variables, temporaries, &*mem);
    run_changes::store_at(mem, place, value)
}

// 42: place A takes a new block of B cells.
fn allocate(
    table: &Table,
    n: usize,
    variables: &Variables,
    temporaries: &Temporaries,
    mem: &mut ExecutionMemory,
    counts: &mut Counts,
) -> Result<(), Stop>
    requires { HasSort target statement table.now n × (kind_of table.now n ≡ 42)
        × Counted (memory_of mem.old) counts.old }
    ensures change { Does (allocated (memory_of mem.old)
        (found_in table.now (child_a table.now n) variables.now
        temporaries.now mem.old)
        (value_in table.now (child_b table.now n) variables.now
        temporaries.now mem.old))
        result mem.old mem.new }
    ensures counts { Counted (memory_of mem.new) counts.new }
{
    let place = run_children::find_a(table, n, variables, temporaries, &*mem);
    let size = run_children::evaluate_b(table, n, variables, temporaries, &*mem);
    run_allocation::new_at(mem, counts, place, size)
}

// 43: what A points to is freed.
fn release(
    table: &Table,
    n: usize,
    variables: &Variables,
    temporaries: &Temporaries,
    mem: &mut ExecutionMemory,
    counts: &mut Counts,
) -> Result<(), Stop>
    requires { HasSort target statement table.now n × (kind_of table.now n ≡ 43)
        × Counted (memory_of mem.old) counts.old }
    ensures change { Does (freed (memory_of mem.old)
        (value_in table.now (child_a table.now n) variables.now
        temporaries.now mem.old))
        result mem.old mem.new }
    ensures counts { Counted (memory_of mem.new) counts.new }
{
    let value = run_children::evaluate_a(table, n, variables, temporaries, &*mem);
    run_changes::free_at(mem, counts, value)
}

// 60: the temporary takes the address of place A.
fn take_address(
    table: &Table,
    n: usize,
    variables: &Variables,
    temporaries: &mut Temporaries,
    mem: &ExecutionMemory,
) -> Result<(), Stop>
    requires { HasSort target statement table.now n × (kind_of table.now n ≡ 60) }
    ensures { Takes temporaries.old temporaries.new result (mark_of table.now n)
        (address_of (found_in table.now (child_a table.now n) variables.now
        temporaries.old mem.now)) }
{
    let place = run_children::find_a(table, n, variables, &*temporaries, mem);
    let address = evaluation_answers::address(place);
    watched_steps::take_evaluated(temporaries, table::mark(&table[..], n) as usize, address)
}

// 61: the temporary takes expression A.
fn take_value(
    table: &Table,
    n: usize,
    variables: &Variables,
    temporaries: &mut Temporaries,
    mem: &ExecutionMemory,
) -> Result<(), Stop>
    requires { HasSort target statement table.now n × (kind_of table.now n ≡ 61) }
    ensures { Takes temporaries.old temporaries.new result (mark_of table.now n)
        (value_in table.now (child_a table.now n) variables.now
        temporaries.old mem.now) }
{
    let value = run_children::evaluate_a(table, n, variables, &*temporaries, mem);
    watched_steps::take_evaluated(temporaries, table::mark(&table[..], n) as usize, value)
}

// 67: the temporary is asserted.
fn assert(table: &Table, n: usize, temporaries: &Temporaries) -> Result<(), Stop>
    requires { HasSort target statement table.now n × (kind_of table.now n ≡ 67) }
    ensures { result ≡ asserted_true (condition (held_in (temporaries_of temporaries.now)
        (mark_of table.now n))) }
{
    let t = watched_steps::test_temporary(temporaries, table::mark(&table[..], n) as usize);
    run_endings::assert_true(t)
}

// A statement that runs no other.
fn act(
    table: &Table,
    n: usize,
    variables: &Variables,
    temporaries: &mut Temporaries,
    mem: &mut ExecutionMemory,
    obs: &mut ObservationMemory,
    owners: &mut MarkOwners,
    counts: &mut Counts,
) -> Result<(), Stop>
    requires { Ready table.now n
        × IsAct (kind_of table.now n)
        × Beside mem.old obs.old counts.old owners.old }
    ensures outcome { Acts table.now n (variables_of variables.now) result
        (lent mem.old obs.old temporaries.old)
        (lent mem.new obs.new temporaries.new) }
    ensures beside { Beside mem.new obs.new counts.new owners.new }
{
    match table::kind(&table[..], n) {
        40 => Ok(()),
        41 => assign(table, n, variables, &*temporaries, mem),
        42 => allocate(table, n, variables, &*temporaries, mem, counts),
        43 => release(table, n, variables, &*temporaries, mem, counts),
        60 => take_address(table, n, variables, temporaries, &*mem),
        61 => take_value(table, n, variables, temporaries, &*mem),
        63..=65 => watched_steps::take(table, n, temporaries, &*obs),
        67 => assert(table, n, &*temporaries),
        70 => watched_noting::mark_cell(table, n, &*temporaries, obs),
        _ => watched_noting::note_block(table, n, &*temporaries, obs, owners),
    }
}

// How it comes out.
pub fn step(
    table: &Table,
    n: usize,
    variables: &Variables,
    temporaries: &mut Temporaries,
    mem: &mut ExecutionMemory,
    obs: &mut ObservationMemory,
    owners: &mut MarkOwners,
    counts: &mut Counts,
    fuel: u32,
) -> Ended
    requires { Ready table.now n
        × IsAct (kind_of table.now n)
        × Beside mem.old obs.old counts.old owners.old }
    ensures outcome { Runs table.now n (variables_of variables.now) fuel result
        (lent mem.old obs.old temporaries.old)
        (lent mem.new obs.new temporaries.new) }
    ensures beside { Beside mem.new obs.new counts.new owners.new }
{
    let outcome = act(table, n, variables, temporaries, mem, obs, owners, counts);
    run_endings::conclude(outcome, watched_choices::statement_of(table, n), fuel)
}
