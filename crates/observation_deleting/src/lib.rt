// Delete block, a change of the observation memory.

#![tactic(auto)]

ghost use Rattle.rules.specs.Observation.{delete_block};
ghost use Rattle.rules.specs.Layout.{observation_of};
ghost use Rattle.rules.proofs.Memory.MarkOwners.{MarksOwned};
ghost use Rattle.observation_answers.specs.Calls.{Answers};

use rules::{MarkOwners, ObservationMemory, Pointer, Recorded, Stop, Value};

// The owners of the marks are those of the live blocks, before and after.
pub fn delete_block(
    obs: &mut ObservationMemory,
    owners: &mut MarkOwners,
    v: Value,
) -> Result<(), Stop>
    requires { MarksOwned (observation_of obs.old) owners.old }
    ensures answer { Answers obs.old obs.new result
        (delete_block (observation_of obs.old) v) }
    ensures owners { MarksOwned (observation_of obs.new) owners.new }
{
    let p = Pointer::try_from(v)?;
    if p.offset != 0 {
        return Err(Stop::Contradiction);
    }
    let Recorded::Live(first, n) = observation_records::record_of(&*obs, p.name) else {
        return Err(Stop::Contradiction);
    };
    observation_blocks::remove_block(obs, p.name, first, n);
    observation_owners::give_back(owners, first, n);
    Ok(())
}
