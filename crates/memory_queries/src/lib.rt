// The queries of a pointer into the execution memory, and whether a block there is live.

#![tactic(auto)]

ghost use Rattle.std.specs.Prelude.{◌≡◌};
ghost use Rattle.rules.specs.Memory.{recorded_of, block_of, live_block, cell_of};
ghost use Rattle.rules.specs.Evaluation.{is_initialised, queried};
ghost use Rattle.rules.specs.Layout.{memory_of};

use rules::{Block, Cell, Evaluated, ExecutionMemory, Pointer, Query, Value};

// Whether a cell holds an integer or a pointer.
fn is_initialised(mem: &ExecutionMemory, i: usize) -> bool
    ensures { result ≡ is_initialised (cell_of (memory_of mem.now) i) }
{
    matches!(
        memory_cells::cell(mem, i),
        Cell::Holds(_, Value::Integer(_) | Value::Pointer(_))
    )
}

// Whether a block is live.
pub fn is_live(mem: &ExecutionMemory, name: u16) -> bool
    ensures { result ≡ live_block (memory_of mem.now) name }
{
    matches!(
        memory_cells::block(mem, name),
        Block::Fixed(..) | Block::Freeable(..)
    )
}

// The five queries of a pointer, each by itself or by its number.
pub fn query<Q: Into<Query>>(mem: &ExecutionMemory, query: Q, p: Pointer) -> Evaluated
    ensures { (q : Query) × Q.converts query q
        × (result ≡ queried q (recorded_of (block_of (memory_of mem.now) p.name))
        (λ i. is_initialised (cell_of (memory_of mem.now) i)) p) }
{
    let block = memory_cells::block(mem, p.name).into();
    block_places::query(block, |i| is_initialised(mem, i), query.into(), p)
}
