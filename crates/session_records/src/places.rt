// The places of the bytes of a record, in the words of document 01, and the sizes that they follow from.
use session::limits::RECORD_BYTES;

// "Byte 0 is the kind".
pub const KIND: usize = 0;

// Kinds 1 and 2: "byte 1 number". Kinds 3 and 4: "byte 1 object".
pub const NUMBER: usize = 1;

pub const OBJECT: usize = 1;

// Kind 1: "byte 2 mask". The bytes behind it are unnamed.
pub const MASK: usize = 2;

pub const MASK_END: usize = MASK + 1;

// Kind 2: "byte 2 level, byte 3 mask of fields holding a number, bytes 4 to 15 three 32-bit fields".
pub const LEVEL: usize = 2;

pub const FIELD_MASK: usize = 3;

pub const FIRST_FIELD: usize = 4;

// Kinds 3 and 4: "byte 2 message name".
pub const NAME: usize = 2;

// Kind 3: "byte 3 operation, bytes 4, 5, 6 operands a, b, c, bytes 8 to 11 a number n".
pub const OPERATION: usize = 3;

pub const OPERAND_A: usize = 4;

pub const OPERAND_B: usize = 5;

pub const OPERAND_C: usize = 6;

pub const OPERANDS_END: usize = OPERAND_C + 1;

pub const OPERAND_N: usize = 8;

// Kind 4: "byte 3 tag, bytes 4 to 7 parameter".
pub const TAG: usize = 3;

pub const PARAMETER: usize = 4;

// The tag of a number. "1 number, 0 NIL".
pub const NUMBER_TAG: u8 = 1;

// The bytes of a 32-bit number, and where the last one of a record starts.
pub const WORD_BYTES: usize = 4;

pub const LAST_WORD: usize = RECORD_BYTES - WORD_BYTES;

// The bytes of a 64-bit word, and where the two of a record start.
pub const LONG_BYTES: usize = 8;

pub const FIRST_LONG: usize = 0;

pub const SECOND_LONG: usize = RECORD_BYTES - LONG_BYTES;
