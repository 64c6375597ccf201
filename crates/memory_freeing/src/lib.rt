// Freed blocks of the execution memory, and blocks at the end of a let.

#![tactic(auto)]

ghost use Rattle.std.specs.Prelude.{◌≡◌};
ghost use Rattle.rules.specs.Memory.{recorded_of, block_of, end_block, without_cells, free_of, free_at};
ghost use Rattle.rules.specs.Layout.{memory_of};
ghost use Rattle.rules.specs.declared.{Recorded.Recorded};
ghost use Rattle.memory_counts.specs.Counted.{Counted};
ghost use Rattle.memory_cells.specs.Changes.{Becomes, change_result, change_memory};
ghost use Rattle.memory_freeing.specs.LetBlocks.{LetBlock};

use rules::{Block, Cell, Counts, ExecutionMemory, Pointer, Stop};

// Block k, which has the n cells from first on, is dead, and they are free.
fn release(mem: &mut ExecutionMemory, counts: &mut Counts, k: u16, first: u16, n: u16)
    requires { Counted (memory_of mem.old) counts.old
        × (recorded_of (block_of (memory_of mem.old) k) ≡ Recorded.Live first n) }
    ensures memory { Becomes mem.old mem.new
        (without_cells (memory_of mem.old) k (Recorded.Live first n)) }
    ensures counts { Counted (memory_of mem.new) counts.new }
{
    memory_cell_fills::fill_free(mem, first, n);
    memory_block_changes::replace_block(mem, k, Block::Dead);
    memory_counts::give_back(counts, first as usize, n as usize);
}

fn free_block(mem: &mut ExecutionMemory, counts: &mut Counts, name: u16) -> Result<(), Stop>
    requires { Counted (memory_of mem.old) counts.old }
    ensures outcome { result ≡ change_result (free_of (memory_of mem.old) name
        (block_of (memory_of mem.old) name)) }
    ensures memory { Becomes mem.old mem.new
        (change_memory (free_of (memory_of mem.old) name (block_of (memory_of mem.old) name))) }
    ensures counts { Counted (memory_of mem.new) counts.new }
{
    match memory_cells::block(mem, name) {
        Block::Freeable(first, n) => {
            release(mem, counts, name, first, n);
            Ok(())
        }
        Block::Unused | Block::Fixed(..) | Block::Dead => Err(Stop::WrongFree),
    }
}

// 46 where the pointer is not to the first cell of a live freeable block.
pub fn free(mem: &mut ExecutionMemory, counts: &mut Counts, p: Pointer) -> Result<(), Stop>
    requires { Counted (memory_of mem.old) counts.old }
    ensures outcome { result ≡ change_result (free_at (memory_of mem.old) p.name p.offset) }
    ensures memory { Becomes mem.old mem.new
        (change_memory (free_at (memory_of mem.old) p.name p.offset)) }
    ensures counts { Counted (memory_of mem.new) counts.new }
{
    if p.offset == 0 {
        free_block(mem, counts, p.name)
    } else {
        Err(Stop::WrongFree)
    }
}

// The end of a let's block: its one cell is free, and its name is dead.
#[tactic(auto, using(crate::proofs::Steps::ended))]
pub fn end(mem: &mut ExecutionMemory, counts: &mut Counts, name: u16)
    requires { Counted (memory_of mem.old) counts.old × LetBlock (memory_of mem.old) name }
    ensures memory { Becomes mem.old mem.new
        (end_block (memory_of mem.old) name) }
    ensures counts { Counted (memory_of mem.new) counts.new }
{
    let first = memory_cells::first_cell(mem, name);
    memory_cell_changes::replace_cell(mem, first, Cell::Free);
    memory_block_changes::replace_block(mem, name, Block::Dead);
    memory_counts::give_back(counts, first, 1);
}
