// The numbers that document 01 fixes for sessions, under the names that the definitions give them.

// The bytes of a record.
pub const RECORD_BYTES: usize = 16;

// Question 3: how many levels, objects and script steps there may be.
pub const MAX_LEVELS: usize = 8;

pub const MAX_OBJECTS: usize = 32;

pub const MAX_STEPS: usize = 256;

// Question 1: how many records there may be, the root message among them.
pub const MAX_RECORDS: usize = MAX_LEVELS + MAX_OBJECTS + MAX_STEPS + 1;

// Question 7: how many steps a method may have.
pub const MAX_METHOD: usize = 16;

// How many message names there are. A byte is compared with `NAME_COUNT`.
pub const NAMES: usize = 16;

pub const NAME_COUNT: u8 = NAMES as u8;

// How many registers a frame has, and how many fields an object.
pub const REGISTERS: u8 = 4;

pub const FIELDS: usize = 3;

// Question 6: how many masks of fields there are, one bit for each field.
pub const FIELD_MASKS: u8 = 1 << FIELDS;

// Document 02, job 7: how many objects a level can make, from which number on.
pub const MADE_OBJECTS: usize = 4;

pub const FIRST_MADE: usize = MAX_OBJECTS;

// How many numbers objects can have, the session's and those that levels can make.
pub const MAX_NUMBERS: usize = FIRST_MADE + MADE_OBJECTS * MAX_LEVELS;

// How many methods there may be, one for each object and name.
pub const MAX_METHODS: usize = MAX_OBJECTS * NAMES;
