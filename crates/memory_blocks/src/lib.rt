// New blocks of the execution memory.

#![tactic(auto)]

ghost use Rattle.std.specs.Prelude.{◌≡◌, ◌+◌, ◌≤◌, ◌<◌};
ghost use Rattle.rules.specs.Sizes.{name_count, cell_count};
ghost use Rattle.rules.specs.Memory.{cell_of, is_free, free_run, make_block, with_block, block_for};
ghost use Rattle.rules.specs.Layout.{memory_of};
ghost use Rattle.rules.proofs.Lists.RunLaws.{NoneBelow};
ghost use Rattle.rules.proofs.Memory.Invariant.{Invariant};
ghost use Rattle.memory_counts.specs.Counted.{Counted};
ghost use Rattle.memory_cells.specs.Changes.{Becomes};
ghost use Rattle.memory_blocks.specs.Blocks.{making_of, made_memory};

use block_places::Places;
use rules::{BLOCKS_LENGTH, Block, Counts, ExecutionMemory, Stop, Use};

// The memory's cells, as places of blocks.
#[derive(Clone, Copy)]
struct Cells<'a>(&'a ExecutionMemory);

impl Places for Cells<'_> {
    ghost free = { λ cells i. is_free (cell_of (memory_of cells.0.now) i) };

    ghost ready = { λ cells. Invariant (memory_of cells.0.now) };

    fn is_free(&self, place: usize) -> bool {
        self.0[BLOCKS_LENGTH + place * 16] == 0
    }

    // Where the block ends that the cell has as its owner.
    fn end_of(&self, place: usize) -> usize {
        let mem = self.0;
        let owner = byte_words::read_word(mem, BLOCKS_LENGTH + place * 16 + 2, 2);
        block_places::end(mem, owner as usize)
    }
}

// The lowest run of n free cells, looked for from a cell below which none is free.
fn free_run(mem: &ExecutionMemory, from: usize, n: usize) -> Option<usize>
    requires { Invariant (memory_of mem.now) × (from ≤ cell_count)
        × NoneBelow (λ i. is_free (cell_of (memory_of mem.now) i)) from }
    ensures { result ≡ free_run (memory_of mem.now) n }
{
    if n == 0 {
        return Some(0);
    }
    block_places::find_run(&Cells(mem), from, n)
}

fn live(purpose: Use, first: u16, n: u16) -> Block
    ensures { result ≡ block_for purpose first n }
{
    match purpose {
        Use::Fixed => Block::Fixed(first, n),
        Use::Freeable => Block::Freeable(first, n),
    }
}

// Block k has the n cells from first on, undefined.
fn place(mem: &mut ExecutionMemory, purpose: Use, k: u16, first: u16, n: u16)
    requires { (first + n ≤ cell_count) × (0 < k) × (k ≤ name_count) }
    ensures { Becomes mem.old mem.new (with_block (memory_of mem.old) purpose k first n) }
{
    memory_cell_fills::fill_undefined(mem, first, n, k);
    memory_block_changes::replace_block(mem, k, live(purpose, first, n));
}

// A new block of n cells: 31 where all names are given, then 30 where no run of free cells is long enough.
pub fn make(
    mem: &mut ExecutionMemory,
    counts: &mut Counts,
    purpose: Use,
    n: usize,
) -> Result<u16, Stop>
    requires { Counted (memory_of mem.old) counts.old }
    ensures answer { result ≡ making_of (make_block (memory_of mem.old) purpose n) }
    ensures memory { Becomes mem.old mem.new
        (made_memory (memory_of mem.old) (make_block (memory_of mem.old) purpose n)) }
    ensures counts { Counted (memory_of mem.new) counts.new }
{
    let k = memory_counts::next_name(counts).ok_or(Stop::NamesGiven)?;
    let first = free_run(mem, counts.lowest, n).ok_or(Stop::NoRun)?;
    let name = k as u16;
    place(mem, purpose, name, first as u16, n as u16);
    memory_counts::take(counts, first, n);
    Ok(name)
}
