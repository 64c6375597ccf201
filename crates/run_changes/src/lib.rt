// The changes that a statement makes in the execution memory: a place takes a value, a block is freed. What came in
// place of a place or a value goes out as it is, whatever its type; a stop of the change goes out as that type.

#![tactic(auto)]

ghost use Rattle.std.specs.Prelude.{Ok};
ghost use Rattle.rules.specs.Memory.{assigned, freed};
ghost use Rattle.rules.specs.Layout.{memory_of};
ghost use Rattle.memory_counts.specs.Counted.{Counted};
ghost use Rattle.run_changes.specs.Changing.{DoesAs, IfGiven};

use rules::{Counts, ExecutionMemory, Pointer, Stop, Value};

// A place takes a value.
pub fn store_at<E: From<Stop> + Drop>(
    mem: &mut ExecutionMemory,
    f: Result<Pointer, E>,
    e: Result<Value, E>,
) -> Result<(), E>
    ensures { IfGiven f (λ p. IfGiven e (λ v.
        DoesAs E.from_gives (assigned (memory_of mem.old) (Ok p) (Ok v)) result mem.old mem.new)
        result mem.old mem.new) result mem.old mem.new }
{
    Ok(memory::store(mem, f?, e?)?)
}

// The block that a value points to is freed.
pub fn free_at<E: From<Stop> + Drop>(
    mem: &mut ExecutionMemory,
    counts: &mut Counts,
    e: Result<Value, E>,
) -> Result<(), E>
    requires { Counted (memory_of mem.old) counts.old }
    ensures change { IfGiven e (λ v.
        DoesAs E.from_gives (freed (memory_of mem.old) (Ok v)) result mem.old mem.new)
        result mem.old mem.new }
    ensures counts { Counted (memory_of mem.new) counts.new }
{
    Ok(memory_freeing::free(mem, counts, Pointer::try_from(e?)?)?)
}
