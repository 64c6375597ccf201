// Where pointers lead in the execution memory.

#![tactic(auto)]

ghost use Rattle.std.specs.Prelude.{◌≡◌};
ghost use Rattle.rules.specs.Memory.{recorded_of, located_in, locate};
ghost use Rattle.rules.specs.Layout.{memory_of};

use rules::{ExecutionMemory, Located, Pointer};

// Where a pointer leads.
#[tactic(auto, unfolding(rules::specs::Memory::locate))]
pub fn locate(mem: &ExecutionMemory, p: Pointer) -> Located
    ensures { result ≡ locate (memory_of mem.now) p }
{
    value_offsets::locate_in(memory_cells::block(mem, p.name).into(), p.offset)
}
