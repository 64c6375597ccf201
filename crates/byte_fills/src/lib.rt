// One byte put, and bytes filled with one number.

#![tactic(auto)]

ghost use Rattle.std.specs.Prelude.{◌≡◌, ◌+◌, ◌<◌, ◌^◌, length, set};
ghost use Rattle.rules.specs.Memory.{fill};

// Byte `at` takes x.
pub fn put_byte(d: &mut [u8], at: usize, x: u8)
    requires { at < length d.old }
    ensures { d.new ≡ set d.old at x }
{
    d[at] = x;
}

// Bytes first, first + 1, .. take x, n times or to the end.
#[tactic(auto, using(crate::proofs::Filled::filled, crate::proofs::Filled::not_filled))]
pub fn fill_bytes(d: &mut [u8], first: usize, n: usize, x: u8)
    requires { first + n < 2 ^ 32 }
    ensures { d.new ≡ fill d.old first n x }
{
    let end = d.len().min(first + n);
    if first < end {
        d[first..end].fill(x);
    }
}
