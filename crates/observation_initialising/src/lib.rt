// The observation memory's initialise: the mark that a pointer leads to becomes 1.

#![tactic(auto)]

ghost use Rattle.rules.specs.Observation.{initialise};
ghost use Rattle.rules.specs.Layout.{observation_of};
ghost use Rattle.observation_blocks.specs.Changes.{ObservationBecomes, with_mark};
ghost use Rattle.observation_answers.specs.Calls.{Answers};

use rules::{BLOCKS_LENGTH, CELL_COUNT, ObservationMemory, Pointer, Stop, Value};

#[tactic(auto, using(observation_blocks::proofs::BecomesLaws::marks_set))]
fn write_mark(obs: &mut ObservationMemory, i: usize)
    ensures { ObservationBecomes obs.old obs.new
        (with_mark (observation_of obs.old) i) }
{
    if i < CELL_COUNT {
        byte_fills::put_byte(&mut obs[..], BLOCKS_LENGTH + i, 1);
    }
}

pub fn initialise(obs: &mut ObservationMemory, v: Value) -> Result<(), Stop>
    ensures { Answers obs.old obs.new result
        (initialise (observation_of obs.old) v) }
{
    let p = Pointer::try_from(v)?;
    let Ok(mark) = observation_pointers::locate_mark(&*obs, p) else {
        return Err(Stop::Contradiction);
    };
    write_mark(obs, mark);
    Ok(())
}
