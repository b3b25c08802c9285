// Values in two words: the tag, 1 for a number and 0 for NIL, and the number, 0 where NIL.
ghost use Rattle.std.specs.Prelude.{◌≡◌, ◌≤◌};
ghost use Rattle.scripts.specs.Value.{tag, number_in};
ghost use Rattle.fields.specs.Fields.{value_of, known_tag};

use session::Value;

// How many words keep a value, and where the number stands among them, behind the tag.
pub const VALUE_WORDS: usize = 2;

pub const NUMBER_AT: usize = 1;

// The tags: of NIL, and of a number, as a byte and as a word.
const NIL: u8 = 0;

const NUMBER: u8 = 1;

const NUMBER_WORD: u32 = NUMBER as u32;

// Among values that were read: the tag that says that nothing was read, and that of NIL.
pub const UNREAD: u32 = 0;

const NIL_READ: u32 = 2;

// The value of two words.
pub fn value_of(tag: u32, number: u32) -> Value
    ensures { result ≡ value_of tag number }
{
    (tag == NUMBER_WORD).then_some(number)
}

// The tag of a value.
pub fn tag_of(value: Value) -> u8
    ensures { (result ≡ tag value) × (result ≤ 1) }
{
    match value {
        None => NIL,
        Some(_) => NUMBER,
    }
}

// The tag of a value that was read.
pub fn known_tag(value: Value) -> u32
    ensures { result ≡ known_tag value }
{
    match value {
        None => NIL_READ,
        Some(_) => NUMBER_WORD,
    }
}

// The number of a value, 0 where it is NIL.
pub fn number_in(value: Value) -> u32
    ensures { result ≡ number_in value }
{
    value.unwrap_or(0)
}
