// The execution memory's cells, written in their bytes, and all of its bytes cleared.

#![tactic(auto)]

ghost use Rattle.std.specs.Prelude.{◌≡◌, ◌+◌, ◌*◌, ◌<◌};
ghost use Rattle.rules.specs.Sizes.{cell_count};
ghost use Rattle.rules.specs.Memory.{set_cell};
ghost use Rattle.rules.specs.Layout.{memory_of, memory_image, cell_place, cell_record, cell_bytes};
ghost use Rattle.rules.specs.Words.{put};
ghost use Rattle.memory_cells.specs.Changes.{Becomes, CellHeld, empty_memory};

use rules::{BLOCKS_LENGTH, CELL_COUNT, Cell, ExecutionMemory, Value};

// Sixteen bytes of cell i: a kind, an owner and a name of two bytes each, a number.
fn write_parts(mem: &mut ExecutionMemory, i: usize, kind: u8, owner: u16, name: u16, z: i64)
    requires { i < cell_count }
    ensures { mem.new ≡ put mem.old (cell_place i) (cell_record kind owner name z) }
{
    let at = BLOCKS_LENGTH + i * 16;
    block_places::write_record(mem, at, kind, owner, name);
    byte_words::write_i64(mem, at + 8, z);
}

#[inline(always)]
#[tactic(auto, unfolding(rules::specs::Layout::cell_bytes))]
fn write_cell(mem: &mut ExecutionMemory, i: usize, c: Cell)
    requires { i < cell_count }
    ensures bytes { mem.new ≡ put mem.old (cell_place i) (cell_bytes c) }
    ensures held { CellHeld c }
{
    match c {
        Cell::Free => write_parts(mem, i, 0, 0, 0, 0),
        Cell::Holds(owner, Value::Undefined) => write_parts(mem, i, 1, owner, 0, 0),
        Cell::Holds(owner, Value::Integer(z)) => write_parts(mem, i, 2, owner, 0, z),
        Cell::Holds(owner, Value::Pointer(p)) => write_parts(mem, i, 3, owner, p.name, p.offset),
    }
}

// Cell i becomes c. Inlined, so that where a cell's kind is known it is written without a test of it.
#[inline(always)]
pub fn replace_cell(mem: &mut ExecutionMemory, i: usize, c: Cell)
    requires { i < cell_count }
    ensures { Becomes mem.old mem.new (set_cell (memory_of mem.old) i c) }
{
    write_cell(mem, i, c);
}

// Cell i, where there is one, becomes c.
#[tactic(auto, using(crate::proofs::Writing::cell_outside))]
pub fn put_cell(mem: &mut ExecutionMemory, i: usize, c: Cell)
    ensures { Becomes mem.old mem.new (set_cell (memory_of mem.old) i c) }
{
    if i < CELL_COUNT {
        replace_cell(mem, i, c);
    }
}

#[tactic(auto, using(crate::proofs::Clearing::cleared))]
pub fn clear(mem: &mut ExecutionMemory)
    ensures { mem.new ≡ memory_image empty_memory }
{
    mem.fill(0);
}
