// The answers of evaluating and finding: made anew, the pointer to a place, the place of a pointer.

#![tactic(auto)]

ghost use Rattle.std.specs.Prelude.{◌≡◌};
ghost use Rattle.rules.specs.Evaluation.{pointed_by, address_of};

use rules::{Evaluated, Found, Pointer, Value};

// The same answer, made anew: a copy would move its unused bytes too, which is slow where a call has written it.
pub fn restate(e: Evaluated) -> Evaluated
    ensures { result ≡ e }
{
    match e {
        Ok(Value::Undefined) => Ok(Value::Undefined),
        Ok(Value::Integer(z)) => Ok(Value::Integer(z)),
        Ok(Value::Pointer(p)) => Ok(Value::Pointer(Pointer {
            name: p.name,
            offset: p.offset,
        })),
        Err(stop) => Err(stop),
    }
}

// The pointer to a place.
pub fn address(f: Found) -> Evaluated
    ensures { result ≡ address_of f }
{
    Ok(Value::Pointer(f?))
}

// The place that a value points to: 40 where it is no pointer.
pub fn point(e: Evaluated) -> Found
    ensures { result ≡ pointed_by e }
{
    Pointer::try_from(e?)
}
