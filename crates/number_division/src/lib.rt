// The two divisions of integers, exact: rounded toward zero and to the nearest.

#![tactic(auto)]

ghost use Rattle.std.specs.Prelude.{◌≡◌, nat_abs, ◌<◌};
ghost use Rattle.rules.specs.Numbers.{divided, rounds_up, toward_zero, to_nearest};

use rules::Stop;

// Rounded toward zero.
pub fn divide(a: i64, b: i64) -> Result<i64, Stop>
    ensures { result ≡ divided toward_zero a b }
{
    if b == 0 {
        return Err(Stop::ZeroDivisor);
    }
    a.checked_div(b).ok_or(Stop::Overflow)
}

// Whether the quotient's magnitude is rounded up: the remainder is over half of the divisor, or exactly half of it and
// the quotient is odd.
fn rounds_up(q: i64, r: i64, b: i64) -> bool
    requires { nat_abs r < nat_abs b }
    ensures { result ≡ rounds_up (nat_abs q) (nat_abs r) (nat_abs b) }
{
    let below = number::magnitude(r);
    let above = number::magnitude(b) - below;
    if above == below {
        return number::magnitude(q) % 2 == 1;
    }
    above < below
}

// Rounded to the nearest, a half to the even neighbour.
pub fn divide_nearest(a: i64, b: i64) -> Result<i64, Stop>
    ensures { result ≡ divided to_nearest a b }
{
    let q = divide(a, b)?;
    let r = a % b;
    if rounds_up(q, r, b) {
        if (a < 0) != (b < 0) {
            Ok(q - 1)
        } else {
            Ok(q + 1)
        }
    } else {
        Ok(q)
    }
}
