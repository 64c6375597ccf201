// Operators on values: integers and pointers. Which blocks are live, the memory says that an operation asks.

#![tactic(auto)]

ghost use Rattle.std.specs.Prelude.{◌≡◌, ℕ, Bool};
ghost use Rattle.rules.specs.Numbers.{on_integers, on_pointer_and_integer, on_pointers, operate};
ghost use Rattle.rules_endings.specs.ComparedBlocks.{compared_by, are_live, every_live};

use rules::{Evaluated, Operator, Pointer, Stop, Value};

// The blocks that an operator asks about, if it does.
pub type Compared = Option<(u16, u16)>;

// What an operator asks of a memory: whether the block of a name is live.
pub trait Liveness {
    ghost live: { Self → ℕ → Bool };

    fn is_live(&self, name: u16) -> bool
        ensures { result ≡ live self.now name };
}

// Inlined, as what calls it is, so that a value goes into its place once.
#[inline(always)]
#[tactic(auto, unfolding(rules::specs::Numbers::on_integers))]
fn operate_integers(operator: Operator, x: i64, y: i64) -> Evaluated
    ensures { result ≡ on_integers operator x y }
{
    match operator {
        Operator::Add => number::add(x, y).map(Value::Integer),
        Operator::Subtract => number::subtract(x, y).map(Value::Integer),
        Operator::Multiply => number::multiply(x, y).map(Value::Integer),
        Operator::Divide => number_division::divide(x, y).map(Value::Integer),
        Operator::Nearest => number_division::divide_nearest(x, y).map(Value::Integer),
        Operator::AtMost => value::truth(x <= y),
        Operator::Equal => value::truth(x == y),
        Operator::Shift => Err(Stop::WrongSort),
    }
}

// A pointer is shifted by an integer, and takes no other operator with one.
#[tactic(auto, unfolding(rules::specs::Numbers::on_pointer_and_integer))]
fn shift(operator: Operator, p: Pointer, y: i64) -> Evaluated
    ensures { result ≡ on_pointer_and_integer operator p y }
{
    if operator != Operator::Shift {
        return Err(Stop::WrongSort);
    }
    let offset = number::add(p.offset, y)?;
    Ok(Value::Pointer(Pointer { offset, ..p }))
}

// Two pointers are compared, and take no other operator.
#[tactic(auto, unfolding(rules::specs::Numbers::on_pointers))]
fn compare(operator: Operator, p: Pointer, q: Pointer) -> Evaluated
    ensures { result ≡ on_pointers every_live operator p q }
{
    if operator != Operator::Equal {
        return Err(Stop::WrongSort);
    }
    value::truth(p == q)
}

// The blocks that an operator asks about: those of two pointers that equality compares.
#[inline(always)]
pub fn find_compared<K: Into<Operator>>(operator: K, a: Value, b: Value) -> Compared
    ensures { (o : Operator) × K.converts operator o × (result ≡ compared_by o a b) }
{
    let operator = operator.into();
    match (a, b) {
        (Value::Pointer(p), Value::Pointer(q)) if operator == Operator::Equal => {
            Some((p.name, q.name))
        }
        _ => None,
    }
}

// Whether the blocks that are compared, if any, are live.
#[inline(always)]
fn are_live<M: Liveness>(memory: &M, compared: Compared) -> bool
    ensures { result ≡ are_live (M.live memory.now) compared }
{
    match compared {
        Some((x, y)) => memory.is_live(x) && memory.is_live(y),
        None => true,
    }
}

// An operator on two values where the blocks that it asks about are live: 40 where it does not take their sorts.
#[inline(always)]
#[tactic(auto, unfolding(rules::specs::Numbers::operate))]
pub fn operate<K: Into<Operator>>(operator: K, a: Value, b: Value) -> Evaluated
    ensures { (o : Operator) × K.converts operator o × (result ≡ operate every_live o a b) }
{
    let operator = operator.into();
    match (a, b) {
        (Value::Integer(x), Value::Integer(y)) => operate_integers(operator, x, y),
        (Value::Pointer(p), Value::Integer(y)) => shift(operator, p, y),
        (Value::Pointer(p), Value::Pointer(q)) => compare(operator, p, q),
        _ => Err(Stop::WrongSort),
    }
}

// An operator on two pointers, which asks a memory first: 47 where a block that it asks about is not live.
fn ask_first<M: Liveness>(memory: &M, operator: Operator, p: Pointer, q: Pointer) -> Evaluated
    ensures { result ≡ on_pointers (M.live memory.now) operator p q }
{
    let (a, b) = (Value::Pointer(p), Value::Pointer(q));
    if are_live(memory, find_compared(operator, a, b)) {
        operate(operator, a, b)
    } else {
        Err(Stop::NotLive)
    }
}

// An operator on two values, on a memory. Two pointers alone can be asked about: others pay for no question.
#[inline(always)]
#[tactic(auto, unfolding(rules::specs::Numbers::operate))]
pub fn operate_where<M: Liveness>(memory: &M, operator: Operator, a: Value, b: Value) -> Evaluated
    ensures { result ≡ operate (M.live memory.now) operator a b }
{
    match (a, b) {
        (Value::Integer(x), Value::Integer(y)) => operate_integers(operator, x, y),
        (Value::Pointer(p), Value::Integer(y)) => shift(operator, p, y),
        (Value::Pointer(p), Value::Pointer(q)) => ask_first(memory, operator, p, q),
        _ => Err(Stop::WrongSort),
    }
}
