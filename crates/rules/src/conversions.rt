// Conversions between the types, and to their numbers.

ghost use Rattle.std.specs.Prelude.{◌≡◌, Ok, Err};
ghost use Rattle.rules.specs.Types.{stop_number, rule_number, missed};
ghost use Rattle.rules.specs.Nodes.{operator_of, query_of};
ghost use Rattle.rules.specs.Numbers.{truth};
ghost use Rattle.rules.specs.Memory.{on_integer, on_pointer, recorded_of};

use crate::{Block, Miss, Operator, Pointer, Query, Recorded, Rule, Stop, Value};

// The operator of a number that a table has; a shift's record has none.
impl From<u8> for Operator {
    ghost from_gives = { λ number operator. operator ≡ operator_of number };

    fn from(number: u8) -> Operator {
        match number {
            1 => Operator::Add,
            2 => Operator::Subtract,
            3 => Operator::Multiply,
            4 => Operator::Divide,
            5 => Operator::Nearest,
            6 => Operator::AtMost,
            7 => Operator::Equal,
            _ => Operator::Shift,
        }
    }
}

// The query of a number that a table has.
impl From<u8> for Query {
    ghost from_gives = { λ number query. query ≡ query_of number };

    fn from(number: u8) -> Query {
        match number {
            1 => Query::Valid,
            2 => Query::Initialised,
            3 => Query::Base,
            4 => Query::Offset,
            _ => Query::BlockLength,
        }
    }
}

// "Operators 6 and 7 and queries 1 and 2 give 1 or 0."
impl From<bool> for Value {
    ghost from_gives = { λ holds value. value ≡ truth holds };

    fn from(holds: bool) -> Value {
        Value::Integer(i64::from(holds))
    }
}

// "40 wrong sort of value" where it is no integer.
impl TryFrom<Value> for i64 {
    type Error = Stop;

    ghost try_from_gives = { λ value integer. integer ≡ on_integer value Err Ok };

    fn try_from(value: Value) -> Result<i64, Stop> {
        match value {
            Value::Integer(z) => Ok(z),
            Value::Undefined | Value::Pointer(_) => Err(Stop::WrongSort),
        }
    }
}

// "40 wrong sort of value" where it is no pointer.
impl TryFrom<Value> for Pointer {
    type Error = Stop;

    ghost try_from_gives = { λ value pointer. pointer ≡ on_pointer value Err Ok };

    fn try_from(value: Value) -> Result<Pointer, Stop> {
        match value {
            Value::Pointer(p) => Ok(p),
            Value::Undefined | Value::Integer(_) => Err(Stop::WrongSort),
        }
    }
}

// What both memories ask of a block: whether it is live, and where.
impl From<Block> for Recorded {
    ghost from_gives = { λ block recorded. recorded ≡ recorded_of block };

    fn from(block: Block) -> Recorded {
        match block {
            Block::Unused => Recorded::Unused,
            Block::Fixed(first, n) | Block::Freeable(first, n) => Recorded::Live(first, n),
            Block::Dead => Recorded::Dead,
        }
    }
}

impl From<Stop> for u32 {
    ghost from_gives = { λ stop number. number ≡ stop_number stop };

    fn from(stop: Stop) -> u32 {
        stop as u32
    }
}

impl From<Miss> for Stop {
    ghost from_gives = { λ miss stop. stop ≡ missed miss };

    fn from(miss: Miss) -> Stop {
        match miss {
            Miss::Dead => Stop::DeadBlock,
            Miss::Outside => Stop::OutsideBlock,
        }
    }
}

impl From<Rule> for u32 {
    ghost from_gives = { λ rule number. number ≡ rule_number rule };

    fn from(rule: Rule) -> u32 {
        rule as u32
    }
}
