// A statement's new block, made first and then stored.

#![tactic(auto)]

ghost use Rattle.std.specs.Prelude.{Ok};
ghost use Rattle.rules.specs.Memory.{freeable, make_block, store_new, new_of_size, allocated};
ghost use Rattle.rules.specs.Layout.{memory_of};
ghost use Rattle.memory_counts.specs.Counted.{Counted};
ghost use Rattle.run_changes.specs.Changing.{Does, DoesAs, IfGiven};

use rules::{Counts, ExecutionMemory, Pointer, Stop, Use, Value};

// A place takes the pointer to a new block of n cells.
fn store_new(
    mem: &mut ExecutionMemory,
    counts: &mut Counts,
    p: Pointer,
    n: usize,
) -> Result<(), Stop>
    requires { Counted (memory_of mem.old) counts.old }
    ensures change { Does (store_new (memory_of mem.old) p (make_block (memory_of mem.old)
        freeable n)) result mem.old mem.new }
    ensures counts { Counted (memory_of mem.new) counts.new }
{
    let name = memory_blocks::make(mem, counts, Use::Freeable, n)?;
    memory::store(mem, p, Value::Pointer(Pointer { name, offset: 0 }))
}

// 45 where the size is below 1.
fn new_of_size(
    mem: &mut ExecutionMemory,
    counts: &mut Counts,
    p: Pointer,
    z: i64,
) -> Result<(), Stop>
    requires { Counted (memory_of mem.old) counts.old }
    ensures change { Does (new_of_size (memory_of mem.old) p z) result mem.old mem.new }
    ensures counts { Counted (memory_of mem.new) counts.new }
{
    if z < 1 {
        return Err(Stop::SizeBelowOne);
    }
    store_new(mem, counts, p, z as usize)
}

// A place takes a new block. What came in place of the place or the size goes out as it is, whatever its type; a stop
// goes out as that type.
pub fn new_at<E: From<Stop> + Drop>(
    mem: &mut ExecutionMemory,
    counts: &mut Counts,
    f: Result<Pointer, E>,
    e: Result<Value, E>,
) -> Result<(), E>
    requires { Counted (memory_of mem.old) counts.old }
    ensures change { IfGiven f (λ p. IfGiven e (λ v.
        DoesAs E.from_gives (allocated (memory_of mem.old) (Ok p) (Ok v)) result mem.old mem.new)
        result mem.old mem.new) result mem.old mem.new }
    ensures counts { Counted (memory_of mem.new) counts.new }
{
    let p = f?;
    let size = i64::try_from(e?)?;
    Ok(new_of_size(mem, counts, p, size)?)
}
