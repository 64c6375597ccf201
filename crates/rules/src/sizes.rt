// Sizes and limits, and the buffers of those sizes.

// The numbers of `specs/Sizes.antt`, by the same names.
pub const NAME_COUNT: usize = 4095;

pub const CELL_COUNT: usize = 1024;

pub const TEMPORARY_COUNT: usize = 64;

pub const SOURCE_LIMIT: usize = 256;

pub const TARGET_LIMIT: usize = 4096;

pub const INPUT_LIMIT: usize = 256;

pub const BLOCKS_LENGTH: usize = NAME_COUNT * 8;

pub const MEMORY_LENGTH: usize = BLOCKS_LENGTH + CELL_COUNT * 16;

pub const OBSERVATION_LENGTH: usize = BLOCKS_LENGTH + CELL_COUNT;

// The highest name.
pub const LAST_NAME: u16 = NAME_COUNT as u16;

// The bytes of both memories.
pub type ExecutionMemory = [u8; MEMORY_LENGTH];

pub type ObservationMemory = [u8; OBSERVATION_LENGTH];

// Room for the longest table.
pub const TABLE_LENGTH: usize = TARGET_LIMIT * 16;

pub type Table = [u8; TABLE_LENGTH];

// The temporaries, each in 16 bytes.
pub const TEMPORARIES_LENGTH: usize = TEMPORARY_COUNT * 16;

pub type Temporaries = [u8; TEMPORARIES_LENGTH];

// The block of each variable, "0–63".
pub const VARIABLE_COUNT: usize = 64;

pub type Variables = [u16; VARIABLE_COUNT];

// The numbers that `MarkOwners` has: a name for each mark, and the lowest.
pub const OWNERS_LENGTH: usize = CELL_COUNT + 1;
