// The statements of the target language that change the observation memory, and its start.

#![tactic(auto)]

ghost use Rattle.std.specs.Prelude.{◌≡◌, suc, ◌+◌, ◌<◌, ◌≤◌};
ghost use Rattle.rules.specs.Sizes.{temporary_count, input_limit};
ghost use Rattle.rules.specs.Kinds.{statement, target};
ghost use Rattle.rules.specs.Records.{kind_of, mark_of};
ghost use Rattle.rules.specs.Observation.{store_block, delete_block, initialise, record_block, mark_all};
ghost use Rattle.rules.specs.Observation.{start_observation};
ghost use Rattle.rules.specs.Watched.{held_in, called_on, called_on_two};
ghost use Rattle.rules.specs.Layout.{observation_of, observation_image};
ghost use Rattle.rules.specs.Nodes.{HasSort};
ghost use Rattle.rules.proofs.Memory.MarkOwners.{MarksOwned};
ghost use Rattle.evaluation_temporaries.specs.Bytes.{temporaries_of};
ghost use Rattle.observation.specs.Calls.{Answers, ObservationBecomes};
ghost use Rattle.watched_noting.specs.Calls.{IsNote, note_of, no_owners};

use rules::{MarkOwners, ObservationMemory, Pointer, Stop, Table, Temporaries, Value};

// 68: a block is recorded, temporary n pointing to it and the next being its length.
fn record_block(
    temporaries: &Temporaries,
    obs: &mut ObservationMemory,
    owners: &mut MarkOwners,
    n: usize,
) -> Result<(), Stop>
    requires { (n + 1 < temporary_count) × MarksOwned (observation_of obs.old) owners.old }
    ensures observation { Answers obs.old obs.new result
        (called_on_two (held_in (temporaries_of temporaries.now) n)
        (held_in (temporaries_of temporaries.now) (suc n)) (store_block (observation_of obs.old))) }
    ensures owners { MarksOwned (observation_of obs.new) owners.new }
{
    let block = evaluation_temporaries::read_temporary(temporaries, n)?;
    let length = evaluation_temporaries::read_temporary(temporaries, n + 1)?;
    observation::store_block(obs, owners, block, length)
}

// 69: the block that temporary n points to is deleted.
fn delete_block(
    temporaries: &Temporaries,
    obs: &mut ObservationMemory,
    owners: &mut MarkOwners,
    n: usize,
) -> Result<(), Stop>
    requires { (n < temporary_count) × MarksOwned (observation_of obs.old) owners.old }
    ensures observation { Answers obs.old obs.new result
        (called_on (held_in (temporaries_of temporaries.now) n)
        (delete_block (observation_of obs.old))) }
    ensures owners { MarksOwned (observation_of obs.new) owners.new }
{
    let block = evaluation_temporaries::read_temporary(temporaries, n)?;
    observation::delete_block(obs, owners, block)
}

// 68 and 69: what record n says of its temporary is noted.
pub fn note_block(
    table: &Table,
    n: usize,
    temporaries: &Temporaries,
    obs: &mut ObservationMemory,
    owners: &mut MarkOwners,
) -> Result<(), Stop>
    requires { HasSort target statement table.now n × IsNote (kind_of table.now n)
        × MarksOwned (observation_of obs.old) owners.old }
    ensures observation { Answers obs.old obs.new result
        (note_of (kind_of table.now n) (temporaries_of temporaries.now)
        (mark_of table.now n) (observation_of obs.old)) }
    ensures owners { MarksOwned (observation_of obs.new) owners.new }
{
    let kind = table::kind(&table[..], n);
    let first = table::mark(&table[..], n) as usize;
    match kind {
        68 => record_block(temporaries, obs, owners, first),
        _ => delete_block(temporaries, obs, owners, first),
    }
}

// 70: the cell that record n's temporary points to is marked. Its owner stays.
pub fn mark_cell(
    table: &Table,
    n: usize,
    temporaries: &Temporaries,
    obs: &mut ObservationMemory,
) -> Result<(), Stop>
    requires { HasSort target statement table.now n × (kind_of table.now n ≡ 70) }
    ensures { Answers obs.old obs.new result
        (called_on (held_in (temporaries_of temporaries.now) (mark_of table.now n))
        (initialise (observation_of obs.old))) }
{
    let first = table::mark(&table[..], n) as usize;
    let cell = evaluation_temporaries::read_temporary(temporaries, first)?;
    observation::initialise(obs, cell)
}

// Cells 0 .. count - 1 of a block are marked.
fn mark_cells(obs: &mut ObservationMemory, name: u16, count: usize)
    requires { count ≤ input_limit }
    ensures { ObservationBecomes obs.old obs.new
        (mark_all (observation_of obs.old) name count) }
{
    for i in 0..count {
        let offset = i as i64;
        let _ = observation::initialise(obs, Value::Pointer(Pointer { name, offset }));
    }
}

// A block is recorded and all its cells are marked.
fn record_marked(obs: &mut ObservationMemory, owners: &mut MarkOwners, name: u16, count: usize)
    requires { (count ≤ input_limit) × MarksOwned (observation_of obs.old) owners.old }
    ensures observation { ObservationBecomes obs.old obs.new
        (mark_all (record_block (observation_of obs.old) name count) name count) }
    ensures owners { MarksOwned (observation_of obs.new) owners.new }
{
    let start = Value::Pointer(Pointer { name, offset: 0 });
    let _ = observation::store_block(obs, owners, start, Value::Integer(count as i64));
    mark_cells(obs, name, count);
}

// The memory of a run's start: both input blocks recorded, all their cells marked. No mark has an owner before it.
pub fn start_observation(obs: &mut ObservationMemory, owners: &mut MarkOwners, count: usize)
    requires { (count ≤ input_limit) × (owners.old ≡ no_owners) }
    ensures observation { obs.new ≡ observation_image (start_observation count) }
    ensures owners { MarksOwned (observation_of obs.new) owners.new }
{
    observation::clear(obs);
    record_marked(obs, owners, 1, 1);
    record_marked(obs, owners, 2, count);
}
