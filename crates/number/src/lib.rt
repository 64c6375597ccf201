// Sums, differences, products and magnitudes of integers, exact; the pointer shift's offset sum is `add`.

#![tactic(auto)]

ghost use Rattle.std.specs.Prelude.{◌≡◌, nat_abs, ◌+ℤ◌, ◌-ℤ◌, ◌*ℤ◌};
ghost use Rattle.rules.specs.Numbers.{ranged};

use rules::Stop;

pub fn add(a: i64, b: i64) -> Result<i64, Stop>
    ensures { result ≡ ranged (a +ℤ b) }
{
    a.checked_add(b).ok_or(Stop::Overflow)
}

pub fn subtract(a: i64, b: i64) -> Result<i64, Stop>
    ensures { result ≡ ranged (a -ℤ b) }
{
    a.checked_sub(b).ok_or(Stop::Overflow)
}

pub fn multiply(a: i64, b: i64) -> Result<i64, Stop>
    ensures { result ≡ ranged (a *ℤ b) }
{
    a.checked_mul(b).ok_or(Stop::Overflow)
}

// At most 2^63.
pub fn magnitude(a: i64) -> u64
    ensures { result ≡ nat_abs a }
{
    a.unsigned_abs()
}
