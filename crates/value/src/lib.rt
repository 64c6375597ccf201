// Truths, tests and negation of values; no memory and no table.

#![tactic(auto)]

ghost use Rattle.std.specs.Prelude.{◌≡◌, Ok, Err, MatchResult, IsErrAnd};
ghost use Rattle.rules.specs.Evaluation.{opposite};
ghost use Rattle.rules.specs.Numbers.{truth_value, tested};

use rules::{Evaluated, Stop, Test, Value};

// 1 or 0.
pub fn truth(b: bool) -> Evaluated
    ensures { result ≡ truth_value b }
{
    Ok(Value::from(b))
}

// A condition is an integer, true when not 0.
fn test_value(v: Value) -> Test
    ensures { result ≡ tested v }
{
    Ok(i64::try_from(v)? != 0)
}

// What came in place of a value goes out as it is, whatever its type; a stop goes out as that type.
pub fn test<E: From<Stop> + Drop>(e: Result<Value, E>) -> Result<bool, E>
    ensures { MatchResult e
        (λ v. MatchResult (tested v) (λ b. result ≡ Ok b) (λ s. IsErrAnd result (E.from_gives s)))
        (λ x. result ≡ Err x) }
{
    Ok(test_value(e?)?)
}

// 1 for 0, else 0.
pub fn negate(v: Value) -> Evaluated
    ensures { result ≡ opposite v }
{
    truth(!test_value(v)?)
}
