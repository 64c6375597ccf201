// The cells that pointers into the execution memory lead to, read and stored.

#![tactic(auto)]

ghost use Rattle.std.specs.Prelude.{◌≡◌};
ghost use Rattle.rules.specs.Memory.{defined, read_cell, store_cell};
ghost use Rattle.rules.specs.Layout.{memory_of};
ghost use Rattle.memory_cells.specs.Changes.{Becomes, change_result, change_memory};

use rules::{Cell, Evaluated, ExecutionMemory, Pointer, Stop, Value};

// What a cell gives to a reader: 41 where it is undefined.
fn define(c: Cell) -> Evaluated
    ensures { result ≡ defined c }
{
    match c {
        Cell::Free | Cell::Holds(_, Value::Undefined) => Err(Stop::UndefinedCell),
        Cell::Holds(_, v) => Ok(v),
    }
}

pub fn read(mem: &ExecutionMemory, p: Pointer) -> Evaluated
    ensures { result ≡ read_cell (memory_of mem.now) p }
{
    let i = memory_pointers::locate(mem, p)?;
    define(memory_cells::cell(mem, i))
}

// The cell that a pointer leads to takes a value; 42 where its block is dead, 50 where its offset is outside.
pub fn store(mem: &mut ExecutionMemory, p: Pointer, v: Value) -> Result<(), Stop>
    ensures outcome { result ≡ change_result (store_cell (memory_of mem.old) p v) }
    ensures memory { Becomes mem.old mem.new
        (change_memory (store_cell (memory_of mem.old) p v)) }
{
    let i = memory_pointers::locate(&*mem, p)?;
    memory_cell_changes::put_cell(mem, i, Cell::Holds(p.name, v));
    Ok(())
}
