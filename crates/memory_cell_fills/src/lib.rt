// Cells of the execution memory, one behind the other, that become undefined or free.

#![tactic(auto)]

ghost use Rattle.std.specs.Prelude.{◌≡◌, ◌+◌, ◌≤◌};
ghost use Rattle.rules.specs.Sizes.{cell_count};
ghost use Rattle.rules.specs.Layout.{memory_of};
ghost use Rattle.rules.specs.declared.{Value.Value, Cell.Cell};
ghost use Rattle.memory_cells.specs.Changes.{Becomes};
ghost use Rattle.memory_cell_fills.specs.Filling.{fill_cells};

use rules::{Cell, ExecutionMemory, Value};

// The n cells from first on become c. Inlined, so that the kind is known in the loop.
#[inline(always)]
#[tactic(auto, using(crate::proofs::Filling::fill_loop))]
fn fill(mem: &mut ExecutionMemory, first: u16, n: u16, c: Cell)
    requires { first + n ≤ cell_count }
    ensures { Becomes mem.old mem.new (fill_cells (memory_of mem.old) first n c) }
{
    let start = first as usize;
    for i in start..start + n as usize {
        memory_cell_changes::replace_cell(mem, i, c);
    }
}

// They become undefined, with an owner.
pub fn fill_undefined(mem: &mut ExecutionMemory, first: u16, n: u16, owner: u16)
    requires { first + n ≤ cell_count }
    ensures { Becomes mem.old mem.new
        (fill_cells (memory_of mem.old) first n (Cell.Holds owner Value.Undefined)) }
{
    fill(mem, first, n, Cell::Holds(owner, Value::Undefined));
}

// They become free.
pub fn fill_free(mem: &mut ExecutionMemory, first: u16, n: u16)
    requires { first + n ≤ cell_count }
    ensures { Becomes mem.old mem.new
        (fill_cells (memory_of mem.old) first n Cell.Free) }
{
    fill(mem, first, n, Cell::Free);
}
