// The execution memory's block records, written in their bytes.

#![tactic(auto)]

ghost use Rattle.std.specs.Prelude.{◌≡◌, ◌+◌, ◌*◌, ◌-◌, ◌<◌, ◌≤◌};
ghost use Rattle.rules.specs.Sizes.{name_count};
ghost use Rattle.rules.specs.Layout.{memory_of, block_place, block_bytes};
ghost use Rattle.rules.specs.Words.{put};
ghost use Rattle.memory_cells.specs.Changes.{Becomes, set_block, BlockHeld};

use rules::{Block, ExecutionMemory};

#[tactic(auto, unfolding(rules::specs::Layout::block_bytes))]
fn write_block(mem: &mut ExecutionMemory, k: usize, b: Block)
    requires { k < name_count }
    ensures bytes { mem.new ≡ put mem.old (block_place k) (block_bytes b) }
    ensures held { BlockHeld b }
{
    let at = k * 8;
    match b {
        Block::Unused => block_places::write_record(mem, at, 0, 0, 0),
        Block::Fixed(first, n) => block_places::write_record(mem, at, 1, first, n),
        Block::Freeable(first, n) => block_places::write_record(mem, at, 2, first, n),
        Block::Dead => block_places::write_record(mem, at, 3, 0, 0),
    }
}

// The block of a name that has a record becomes b.
pub fn replace_block(mem: &mut ExecutionMemory, name: u16, b: Block)
    requires { (0 < name) × (name ≤ name_count) }
    ensures { Becomes mem.old mem.new (set_block (memory_of mem.old) name b) }
{
    write_block(mem, name as usize - 1, b);
}
