// What both memories have in common: how a block's record is written and where by that the block ends, the search for
// the lowest run of free places, and the place that it starts at.

#![tactic(auto)]

ghost use Rattle.std.specs.Prelude.{◌≡◌, false, Bool, ℕ, ◌+◌, ◌*◌, ◌^◌, ◌≤◌, ◌<◌, length};
ghost use Rattle.rules.specs.Sizes.{cell_count};
ghost use Rattle.rules.specs.Words.{put};
ghost use Rattle.rules.specs.Memory.{lowest_run};
ghost use Rattle.rules.specs.Evaluation.{queried};
ghost use Rattle.rules.specs.Layout.{block_record};
ghost use Rattle.rules.proofs.Lists.RunLaws.{NoneBelow, Held, lowest_taken, lowest_given};
ghost use Rattle.block_places.specs.Ends.{end_at};
ghost use Rattle.block_places.specs.Runs.{FirstHeld};

use rules::{CELL_COUNT, Evaluated, Pointer, Query, Recorded, Stop, Value};
use std::cmp::min;

// The places of a memory: which are free, and where the block ends that has one that is not.
pub trait Places {
    ghost free: { Self → ℕ → Bool };

    ghost ready: { Self → Type 0 };

    fn is_free(&self, place: usize) -> bool
        requires { place < cell_count }
        ensures { result ≡ free self.now place };

    fn end_of(&self, place: usize) -> usize
        requires { ready self.now × (place < cell_count) × (free self.now place ≡ false) }
        ensures { Held (free self.now) place result };
}

// The first place from `from` on, below `end`, that is not free, if one is not.
fn first_held<P: Places>(places: &P, from: usize, end: usize) -> Option<usize>
    requires { end ≤ cell_count }
    ensures { FirstHeld (P.free places.now) from end result }
{
    for place in from..end {
        if !places.is_free(place) {
            return Some(place);
        }
    }
    None
}

// The lowest run of n free places, n from 1 on, looked for from a place below which none is free. A place that is not
// free is left by the end of the block that has it.
pub fn find_run<P: Places>(places: &P, from: usize, n: usize) -> Option<usize>
    requires { (0 < n) × P.ready places.now × (from ≤ cell_count) × NoneBelow (P.free places.now) from }
    ensures { result ≡ lowest_run (P.free places.now) n }
{
    let last = CELL_COUNT.checked_sub(n)?;
    let mut start = from;
    while start <= last {
        match first_held(places, start, start + n) {
            None => return Some(start),
            Some(held) => start = places.end_of(held),
        }
    }
    None
}

// Where a name's block ends, by its record, which is alike in both memories.
pub fn end(memory: &[u8], name: usize) -> usize
    requires { (0 < name) × (name * 8 ≤ length memory.now) }
    ensures { result ≡ end_at memory.now name }
{
    let at = name * 8;
    let first = byte_words::read_word(memory, at - 6, 2) as usize;
    let n = byte_words::read_word(memory, at - 4, 2) as usize;
    first + n
}

// Eight bytes at a place: a state, a 0, two numbers of two bytes each, and zeros. So are the records of both memories'
// blocks, with a first place and a length, and so do cells begin, with an owner and a name.
pub fn write_record(memory: &mut [u8], at: usize, state: u8, first: u16, n: u16)
    requires { at + 8 ≤ length memory.old }
    ensures { memory.new ≡ put memory.old at (block_record state first n) }
{
    let record = state as u64 + first as u64 * 65536 + n as u64 * 4294967296;
    byte_words::write_word(memory, at, 8, record);
}

// The place below which none is free, once n places from first on are taken.
pub fn lowest_taken(first: usize, n: usize, lowest: usize) -> usize
    requires { first + n < 2 ^ 32 }
    ensures { result ≡ lowest_taken first n lowest }
{
    if first == lowest { first + n } else { lowest }
}

// The same once those from first on are given back.
pub fn lowest_given(first: usize, lowest: usize) -> usize
    ensures { result ≡ lowest_given first lowest }
{
    min(first, lowest)
}

// A query of a pointer into a block; a test tells the cells that are initialised. 47 where the base, offset or length is
// asked of a block that is not live.
#[tactic(auto, unfolding(rules::specs::Evaluation::queried))]
pub fn query<F: Fn(usize) -> bool>(block: Recorded, is_marked: F, q: Query, p: Pointer) -> Evaluated
    requires { F.IsAlwaysCallable is_marked }
    ensures { (marked : ℕ → Bool) → ((i : ℕ) (b : Bool) → F.post is_marked i b → b ≡ marked i)
        → result ≡ queried q block marked p }
{
    let located = value_offsets::locate_in(block, p.offset);
    match (q, block) {
        (Query::Valid, _) => Ok(Value::from(located.is_ok())),
        (Query::Initialised, _) => Ok(Value::from(located.is_ok_and(is_marked))),
        (_, Recorded::Unused | Recorded::Dead) => Err(Stop::NotLive),
        (Query::Base, Recorded::Live(..)) => Ok(Value::Pointer(Pointer { offset: 0, ..p })),
        (Query::Offset, Recorded::Live(..)) => Ok(Value::Integer(p.offset)),
        (Query::BlockLength, Recorded::Live(_, n)) => Ok(Value::Integer(i64::from(n))),
    }
}
