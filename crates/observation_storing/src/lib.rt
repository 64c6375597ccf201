// The observation memory's store block: a block goes to the lowest run of free marks that holds it.

#![tactic(auto)]

ghost use Rattle.std.specs.Prelude.{◌≡◌, ◌<◌, ◌≤◌};
ghost use Rattle.rules.specs.Sizes.{cell_count};
ghost use Rattle.rules.specs.Observation.{record_of, store_block};
ghost use Rattle.rules.specs.Layout.{observation_of};
ghost use Rattle.rules.specs.declared.{Recorded.Recorded};
ghost use Rattle.rules.proofs.Memory.MarkOwners.{MarksOwned};
ghost use Rattle.observation_answers.specs.Calls.{Answers};
ghost use Rattle.observation_storing.specs.Storing.{store_new};

use rules::{MarkOwners, ObservationMemory, Pointer, Recorded, Stop, Value};

// A new block of n marks goes to the lowest run that holds it, if there is one. Its marks are 0 already, as all that
// lie outside live blocks are.
#[tactic(auto, using(crate::proofs::StoreLaws::runs))]
fn store_new(
    obs: &mut ObservationMemory,
    owners: &mut MarkOwners,
    name: u16,
    n: usize,
) -> Result<(), Stop>
    requires { MarksOwned (observation_of obs.old) owners.old
        × (record_of (observation_of obs.old) name ≡ Recorded.Unused) × (0 < n) }
    ensures answer { Answers obs.old obs.new result
        (store_new (observation_of obs.old) name n) }
    ensures owners { MarksOwned (observation_of obs.new) owners.new }
{
    let found = observation_free_marks::find_marks(&*obs, &*owners, n);
    let first = found.ok_or(Stop::Contradiction)? as u16;
    observation_blocks::place_block(obs, name, first, n as u16);
    observation_owners::take(owners, name, first, n as u16);
    Ok(())
}

// The owners of the marks are those of the live blocks, before and after.
pub fn store_block(
    obs: &mut ObservationMemory,
    owners: &mut MarkOwners,
    v: Value,
    w: Value,
) -> Result<(), Stop>
    requires { MarksOwned (observation_of obs.old) owners.old }
    ensures answer { Answers obs.old obs.new result
        (store_block (observation_of obs.old) v w) }
    ensures owners { MarksOwned (observation_of obs.new) owners.new }
{
    let p = Pointer::try_from(v)?;
    let Ok(n) = usize::try_from(i64::try_from(w)?) else {
        return Err(Stop::Contradiction);
    };
    if p.offset != 0 || n == 0 {
        return Err(Stop::Contradiction);
    }
    match observation_records::record_of(&*obs, p.name) {
        Recorded::Unused => store_new(obs, owners, p.name, n),
        Recorded::Live(..) | Recorded::Dead => Err(Stop::Contradiction),
    }
}
