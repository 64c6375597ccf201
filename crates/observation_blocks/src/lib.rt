// Blocks of the observation memory, placed and removed: their records and their marks.

#![tactic(auto)]

ghost use Rattle.std.specs.Prelude.{◌≡◌, false, ◌+◌, ◌<◌, ◌≤◌};
ghost use Rattle.rules.specs.Sizes.{name_count, cell_count};
ghost use Rattle.rules.specs.Observation.{with_marks};
ghost use Rattle.rules.specs.Layout.{observation_of};
ghost use Rattle.observation_blocks.specs.Changes.{ObservationBecomes, with_named, mark_range};

use rules::{BLOCKS_LENGTH, ObservationMemory, Recorded};

// A name's block is another.
fn write_record(obs: &mut ObservationMemory, name: u16, block: Recorded)
    requires { (0 < name) × (name ≤ name_count) }
    ensures { ObservationBecomes obs.old obs.new
        (with_named (observation_of obs.old) name block) }
{
    let at = (name as usize - 1) * 8;
    match block {
        Recorded::Unused => block_places::write_record(&mut obs[..], at, 0, 0, 0),
        Recorded::Live(first, n) => block_places::write_record(&mut obs[..], at, 1, first, n),
        Recorded::Dead => block_places::write_record(&mut obs[..], at, 2, 0, 0),
    }
}

// n marks from first on are 0. A variable's block has one mark, and a byte costs less than a fill.
fn clear_marks(obs: &mut ObservationMemory, first: u16, n: u16)
    requires { first + n ≤ cell_count }
    ensures { ObservationBecomes obs.old obs.new
        (mark_range (observation_of obs.old) first n false) }
{
    let at = BLOCKS_LENGTH + first as usize;
    if n == 1 {
        byte_fills::put_byte(&mut obs[..], at, 0);
    } else {
        byte_fills::fill_bytes(&mut obs[..], at, n as usize, 0);
    }
}

// A name's block is live at n marks from first on.
pub fn place_block(obs: &mut ObservationMemory, name: u16, first: u16, n: u16)
    requires { (0 < name) × (name ≤ name_count) }
    ensures { ObservationBecomes obs.old obs.new
        (with_named (observation_of obs.old) name (Recorded.Live first n)) }
{
    write_record(obs, name, Recorded::Live(first, n));
}

// A name's block is dead, and n marks from first on are 0.
pub fn remove_block(obs: &mut ObservationMemory, name: u16, first: u16, n: u16)
    requires { (0 < name) × (name ≤ name_count) × (first + n ≤ cell_count) }
    ensures { ObservationBecomes obs.old obs.new
        (with_marks (observation_of obs.old) name Recorded.Dead first n) }
{
    clear_marks(obs, first, n);
    write_record(obs, name, Recorded::Dead);
}
