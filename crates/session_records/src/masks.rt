// Bytes of a record, chosen by a mask of each of its two 64-bit words: a byte of a mask is all ones where it
// is chosen, and else 0.
use crate::places;
use session::limits::FIELDS;

const BYTE_BITS: usize = 8;

// No byte of a word, and all of them.
pub const NONE: u64 = 0;

pub const ALL: u64 = 0xFFFF_FFFF_FFFF_FFFF;

// The bytes of the first word from a place of the record on.
pub const FROM_MASK_END: u64 = ALL << (BYTE_BITS * places::MASK_END);

pub const FROM_FIRST_FIELD: u64 = ALL << (BYTE_BITS * places::FIRST_FIELD);

pub const FROM_PARAMETER: u64 = ALL << (BYTE_BITS * places::PARAMETER);

pub const FROM_OPERAND_A: u64 = ALL << (BYTE_BITS * places::OPERAND_A);

pub const FROM_OPERAND_B: u64 = ALL << (BYTE_BITS * places::OPERAND_B);

pub const FROM_OPERAND_C: u64 = ALL << (BYTE_BITS * places::OPERAND_C);

pub const FROM_OPERANDS_END: u64 = ALL << (BYTE_BITS * places::OPERANDS_END);

// The bytes of the second word from the record's last 32-bit number on, and those before it.
pub const FROM_LAST_WORD: u64 = ALL << (BYTE_BITS * (places::LAST_WORD - places::SECOND_LONG));

pub const BEFORE_LAST_WORD: u64 = ALL - FROM_LAST_WORD;

// The bytes of each field of an object.
pub const FIRST_OF_FIELD: [u64; FIELDS] = [FROM_FIRST_FIELD, NONE, NONE];

pub const SECOND_OF_FIELD: [u64; FIELDS] = [NONE, BEFORE_LAST_WORD, FROM_LAST_WORD];
