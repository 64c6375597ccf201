// What a run counts beside its execution memory: the free cells, a cell below which none is free, and the next name.

#![tactic(auto)]

ghost use Rattle.std.specs.Prelude.{◌≡◌, ◌+◌, ◌≤◌};
ghost use Rattle.rules.specs.Sizes.{name_count, cell_count, input_limit};
ghost use Rattle.rules_counting.specs.Counting.{name_from};
ghost use Rattle.memory_counts.specs.Counted.{start_counts, after_new, after_end};

use rules::{CELL_COUNT, Counts, NAME_COUNT};

// At the start blocks 1 and 2 have their cells: one, and one for each input.
pub fn start(inputs: usize) -> Counts
    requires { inputs ≤ input_limit }
    ensures { result ≡ start_counts inputs }
{
    Counts {
        free: CELL_COUNT - 1 - inputs,
        lowest: 1 + inputs,
        next: 3,
    }
}

// The next name, unless all are given.
pub fn next_name(counts: &Counts) -> Option<usize>
    ensures { result ≡ name_from counts.now.next }
{
    (counts.next <= NAME_COUNT).then_some(counts.next)
}

// A new block has taken its n cells from first on, and the next name.
pub fn take(counts: &mut Counts, first: usize, n: usize)
    requires { (n ≤ counts.old.free) × (counts.old.next ≤ name_count) × (first + n ≤ cell_count) }
    ensures { counts.new ≡ after_new counts.old first n }
{
    let lowest = block_places::lowest_taken(first, n, counts.lowest);
    *counts = Counts {
        free: counts.free - n,
        lowest,
        next: counts.next + 1,
    };
}

// An ended block has given back its n cells from first on.
pub fn give_back(counts: &mut Counts, first: usize, n: usize)
    requires { counts.old.free + n ≤ cell_count }
    ensures { counts.new ≡ after_end counts.old first n }
{
    let lowest = block_places::lowest_given(first, counts.lowest);
    *counts = Counts {
        free: counts.free + n,
        lowest,
        next: counts.next,
    };
}
