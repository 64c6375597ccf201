// The bytes of the execution memory, read: block records of 8 bytes, then cells of 16.

#![tactic(auto)]

ghost use Rattle.std.specs.Prelude.{◌≡◌, ◌+◌, ◌*◌, ◌<◌, ◌≤◌};
ghost use Rattle.rules.specs.Sizes.{name_count, cell_count};
ghost use Rattle.rules.specs.Memory.{block_of, cell_of};
ghost use Rattle.rules.specs.Layout.{memory_of, block_at, cell_at};
ghost use Rattle.memory_cells.specs.Starts.{StartsAt};

use rules::{BLOCKS_LENGTH, Block, CELL_COUNT, Cell, ExecutionMemory, NAME_COUNT, Pointer, Value};

// Block record k, counted from 0.
#[tactic(auto, unfolding(rules::specs::Layout::block_at))]
fn read_block(mem: &ExecutionMemory, k: usize) -> Block
    requires { k < name_count }
    ensures { result ≡ block_at mem.now k }
{
    let at = k * 8;
    let first = byte_words::read_word(&mem[..], at + 2, 2) as u16;
    let n = byte_words::read_word(&mem[..], at + 4, 2) as u16;
    match mem[at] {
        0 => Block::Unused,
        1 => Block::Fixed(first, n),
        2 => Block::Freeable(first, n),
        _ => Block::Dead,
    }
}

// The block of a name; a name that has no record is as a dead block's.
#[tactic(auto, using(crate::proofs::Reading::blocks_by_name))]
pub fn block(mem: &ExecutionMemory, name: u16) -> Block
    ensures { result ≡ block_of (memory_of mem.now) name }
{
    match usize::from(name) {
        k @ 1..=NAME_COUNT => read_block(mem, k - 1),
        _ => Block::Dead,
    }
}

// The first cell of a name's block, where the block is live.
#[tactic(auto, using(crate::proofs::Reading::starts_at))]
pub fn first_cell(mem: &ExecutionMemory, name: u16) -> usize
    requires { (0 < name) × (name ≤ name_count) }
    ensures { StartsAt (memory_of mem.now) name result }
{
    byte_words::read_word(&mem[..], usize::from(name) * 8 - 6, 2) as usize
}

#[tactic(auto, unfolding(rules::specs::Layout::cell_at))]
fn read_cell(mem: &ExecutionMemory, i: usize) -> Cell
    requires { i < cell_count }
    ensures { result ≡ cell_at mem.now i }
{
    let at = BLOCKS_LENGTH + i * 16;
    let owner = byte_words::read_word(&mem[..], at + 2, 2) as u16;
    match mem[at] {
        0 => Cell::Free,
        1 => Cell::Holds(owner, Value::Undefined),
        2 => Cell::Holds(
            owner,
            Value::Integer(byte_words::read_i64(&mem[..], at + 8)),
        ),
        _ => {
            let name = byte_words::read_word(&mem[..], at + 4, 2) as u16;
            let offset = byte_words::read_i64(&mem[..], at + 8);
            Cell::Holds(owner, Value::Pointer(Pointer { name, offset }))
        }
    }
}

// Cell i; past the last all are free.
#[tactic(auto, using(crate::proofs::Reading::cells_by_place))]
pub fn cell(mem: &ExecutionMemory, i: usize) -> Cell
    ensures { result ≡ cell_of (memory_of mem.now) i }
{
    if i < CELL_COUNT {
        read_cell(mem, i)
    } else {
        Cell::Free
    }
}
