// The execution memory that a run starts with.

#![tactic(auto)]

ghost use Rattle.std.specs.Prelude.{◌≡◌, ◌*◌, ◌/◌, ◌≤◌, length};
ghost use Rattle.rules.specs.Sizes.{input_limit};
ghost use Rattle.rules.specs.Memory.{start_memory};
ghost use Rattle.rules.specs.Answers.{inputs_of};
ghost use Rattle.rules.specs.Layout.{memory_of, memory_image};
ghost use Rattle.memory_cells.specs.Changes.{Becomes};
ghost use Rattle.memory_start.specs.Starting.{with_start, with_inputs};

use rules::{Block, Cell, ExecutionMemory, Pointer, Value};

// The inputs go into the cells from 1 on, eight bytes each.
fn put_inputs(mem: &mut ExecutionMemory, inputs: &[u8])
    ensures { Becomes mem.old mem.new
        (with_inputs (memory_of mem.old) inputs.now (length inputs.now / 8)) }
{
    for (i, input) in inputs.chunks_exact(8).enumerate() {
        let z = byte_words::read_i64(input, 0);
        memory_cell_changes::put_cell(mem, i + 1, Cell::Holds(2, Value::Integer(z)));
    }
}

// Blocks 1 and 2, and the cell of block 1.
fn put_start(mem: &mut ExecutionMemory, n: u16)
    ensures { Becomes mem.old mem.new (with_start (memory_of mem.old) n) }
{
    memory_block_changes::replace_block(mem, 1, Block::Fixed(0, 1));
    memory_block_changes::replace_block(mem, 2, Block::Fixed(1, n));
    let p = Pointer { name: 2, offset: 0 };
    memory_cell_changes::put_cell(mem, 0, Cell::Holds(1, Value::Pointer(p)));
}

// The memory that a run starts with, whatever the bytes were.
pub fn start(mem: &mut ExecutionMemory, inputs: &[u8])
    requires { length inputs.now ≤ input_limit * 8 }
    ensures { mem.new ≡ memory_image (start_memory (inputs_of inputs.now)) }
{
    memory_cell_changes::clear(mem);
    put_start(mem, (inputs.len() / 8) as u16);
    put_inputs(mem, inputs);
}
