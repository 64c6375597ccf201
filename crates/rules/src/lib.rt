// The types that code and definitions share. Document 01 is quoted where it names them.

#![tactic(auto)]

mod conversions;
mod sizes;

pub use sizes::{
    BLOCKS_LENGTH, CELL_COUNT, ExecutionMemory, INPUT_LIMIT, LAST_NAME, MEMORY_LENGTH, NAME_COUNT,
    OBSERVATION_LENGTH, OWNERS_LENGTH, ObservationMemory, SOURCE_LIMIT, TABLE_LENGTH, TARGET_LIMIT,
    TEMPORARIES_LENGTH, TEMPORARY_COUNT, Table, Temporaries, VARIABLE_COUNT, Variables,
};

// What a run counts as it goes: the free cells; a cell below which none is free; and the next name, one past the last
// where all names are given. The order keeps the two that a new block adjusts alike apart, so that the compiler does not
// read both at once just after one was written.
#[derive(Clone, Copy, Debug, PartialEq, Eq)]
pub struct Counts {
    pub free: usize,
    pub lowest: usize,
    pub next: usize,
}

// How far a run is: the fuel left; and the statement that it stopped at, once it has stopped.
#[derive(Clone, Copy, Debug, PartialEq, Eq)]
pub struct Progress {
    pub fuel: u32,
    pub statement: u32,
}

// The live block that has each mark, by its name, 0 where none has; and a mark below which each has an owner.
#[derive(Clone, Copy, Debug, PartialEq, Eq)]
pub struct MarkOwners {
    pub names: [u16; CELL_COUNT],
    pub lowest: usize,
}

// The two languages of tables.
#[derive(Clone, Copy, Debug, PartialEq, Eq)]
pub enum Language {
    Source,
    Target,
}

// The sorts of records.
#[derive(Clone, Copy, Debug, PartialEq, Eq)]
pub enum Sort {
    Expression,
    Place,
    Term,
    Predicate,
    Statement,
}

// "1 add, 2 subtract, 3 multiply, 4 divide toward zero, 5 divide to nearest .., 6 at most, 7 equal, 8 pointer shift".
#[derive(Clone, Copy, Debug, PartialEq, Eq)]
pub enum Operator {
    Add,
    Subtract,
    Multiply,
    Divide,
    Nearest,
    AtMost,
    Equal,
    Shift,
}

// "1 valid, 2 initialised, 3 base address, 4 offset, 5 length".
#[derive(Clone, Copy, Debug, PartialEq, Eq)]
pub enum Query {
    Valid,
    Initialised,
    Base,
    Offset,
    BlockLength,
}

// A block of 42 is freeable, that of a let is fixed.
#[derive(Clone, Copy, Debug, PartialEq, Eq)]
pub enum Use {
    Fixed,
    Freeable,
}

// A record: a kind, a mark, three children and a literal.
#[derive(Clone, Copy, Debug, PartialEq, Eq)]
pub struct Record {
    pub kind: u8,
    pub mark: u8,
    pub a: usize,
    pub b: usize,
    pub c: usize,
    pub literal: i64,
}

// "a pointer with its block name and offset"; the offset may lie outside the block.
#[derive(Clone, Copy, Debug, PartialEq, Eq)]
pub struct Pointer {
    pub name: u16,
    pub offset: i64,
}

// "A value is an integer, a pointer with its block name and offset, or undefined."
#[derive(Clone, Copy, Debug, PartialEq, Eq)]
pub enum Value {
    Undefined,
    Integer(i64),
    Pointer(Pointer),
}

// Why a run stops, by the number of its ending: "30 no run of free cells long enough. 31 all names given. 32 fuel is 0 at
// a while test. 33 assertion false. 40 wrong sort of value. 41 undefined cell read. 42 cell in a dead block. 43 overflow.
// 44 zero divisor. 45 size below 1. 46 free of a pointer to anything but the first cell of a live freeable block. 47 base,
// offset or length of a block not live. 48 observation call that contradicts the record. 49 empty temporary. 50 offset
// outside a live block."
#[derive(Clone, Copy, Debug, PartialEq, Eq)]
pub enum Stop {
    NoRun = 30,
    NamesGiven = 31,
    NoFuel = 32,
    FalseAssertion = 33,
    WrongSort = 40,
    UndefinedCell = 41,
    DeadBlock = 42,
    Overflow = 43,
    ZeroDivisor = 44,
    SizeBelowOne = 45,
    WrongFree = 46,
    NotLive = 47,
    Contradiction = 48,
    EmptyTemporary = 49,
    OutsideBlock = 50,
}

// What evaluating gives, if it does not stop.
pub type Evaluated = Result<Value, Stop>;

// What finding a place gives: where it is.
pub type Found = Result<Pointer, Stop>;

// "Conditions are integers, true when not 0".
pub type Test = Result<bool, Stop>;

// Why a pointer leads to no cell: its block is not live, or its offset lies outside.
#[derive(Clone, Copy, Debug, PartialEq, Eq)]
pub enum Miss {
    Dead,
    Outside,
}

// Where a pointer leads: a cell.
pub type Located = Result<usize, Miss>;

// A block of the execution memory: "0 unused, 1 live and fixed, 2 live and freeable, 3 dead".
// A live one has its first cell and its length.
#[derive(Clone, Copy)]
pub enum Block {
    Unused,
    Fixed(u16, u16),
    Freeable(u16, u16),
    Dead,
}

// A block of the observation memory: "0 unused, 1 live, 2 dead".
#[derive(Clone, Copy)]
pub enum Recorded {
    Unused,
    Live(u16, u16),
    Dead,
}

// A cell is free, or has an owner and a value.
#[derive(Clone, Copy)]
pub enum Cell {
    Free,
    Holds(u16, Value),
}

// By what rule a call is turned away, by its number: "1 length 0 or no multiple of 16. 2 too many records. 3 kind not in
// the language. 4 mark, operator, query, literal or child presence against the rules. 5 child not smaller or of the wrong
// sort. 6 shape. 7 variable used out of scope, or let while in scope. 8 a term or predicate" too deep. "9 inputs no
// multiple of 8 bytes, none, or over 256. 20 output shorter than the translation. 21, 22" a memory of another length.
#[derive(Clone, Copy, Debug, PartialEq, Eq)]
pub enum Rule {
    Length = 1,
    Count = 2,
    Kind = 3,
    Field = 4,
    Child = 5,
    Shape = 6,
    Scope = 7,
    Level = 8,
    Inputs = 9,
    Output = 20,
    Memory = 21,
    Observation = 22,
}

// The rule that is broken and the record that breaks it, 0 where it is none.
#[derive(Clone, Copy, Debug, PartialEq, Eq)]
pub struct Refusal {
    pub rule: Rule,
    pub record: u32,
}

// What the checker says.
pub type Checked = Result<(), Refusal>;

// What an entry point returns. `record` is the refused record, the source statement of an ending,
// or a translation's record count.
#[repr(C)]
#[derive(Clone, Copy)]
pub struct Answer {
    pub number: u32,
    pub record: u32,
    pub fuel: u32,
    pub free_cells: u32,
}
