// Operators on values that point into the execution memory.

#![tactic(auto)]

ghost use Rattle.std.specs.Prelude.{◌≡◌};
ghost use Rattle.rules.specs.Memory.{live_block};
ghost use Rattle.rules.specs.Numbers.{operate};
ghost use Rattle.rules.specs.Layout.{memory_of};

use rules::{Evaluated, ExecutionMemory, Operator, Value};
use value_operators::Liveness;

// The blocks of the execution memory, of which an operator asks whether they are live.
#[derive(Clone, Copy)]
struct Blocks<'a>(&'a ExecutionMemory);

impl Liveness for Blocks<'_> {
    ghost live = { λ blocks name. live_block (memory_of blocks.0.now) name };

    fn is_live(&self, name: u16) -> bool {
        memory_queries::is_live(self.0, name)
    }
}

// An operator, or its number, on two values: 47 where it compares a pointer into a block that is not live.
#[inline(always)]
pub fn operate<K: Into<Operator>>(
    mem: &ExecutionMemory,
    operator: K,
    a: Value,
    b: Value,
) -> Evaluated
    ensures { (o : Operator) × K.converts operator o
        × (result ≡ operate (live_block (memory_of mem.now)) o a b) }
{
    value_operators::operate_where(&Blocks(mem), operator.into(), a, b)
}
