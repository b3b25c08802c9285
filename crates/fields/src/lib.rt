// The fields and the existence of the objects of a run, and what of them a manager has read: two words for each
// value, four values for each number that an object can have.
#![tactic(auto)]

pub mod reads;
pub mod values;

ghost use Rattle.std.specs.Prelude.{◌≡◌, ◌≤◌, ◌<◌, length};
ghost use Rattle.session.specs.Limits.{max_levels, max_numbers, fields as fieldCount};
ghost use Rattle.session.specs.Meaning.{Numbered};
ghost use Rattle.session.specs.Parts.{object_count};
ghost use Rattle.session.specs.Program.{program_of};
ghost use Rattle.scripts.specs.Existence.{existence, initially, is_there, is_unmade, used_of};
ghost use Rattle.scripts.specs.Valid.{Leveled};
ghost use Rattle.fields.specs.Limits.{field_words};
ghost use Rattle.fields.specs.Fields.{field_at, script_in, existence_at_first, known_at, stored_in, FieldThere, FieldSet, Remembered, Forgotten, Filled};

use crate::values::{NUMBER_AT, UNREAD, VALUE_WORDS};
use contents::Session;
use session::Value;
use session::limits::{FIELDS, FIRST_MADE, MADE_OBJECTS, MAX_NUMBERS};

// Existence stands behind an object's fields.
pub const EXISTENCE: u8 = FIELDS as u8;

const EXISTENCE_AT: usize = FIELDS;

// How many values an object has: its fields, and its existence.
const OBJECT_VALUES: usize = FIELDS + 1;

// How many words keep the values of a run, or what of them a manager has read.
pub const FIELD_WORDS: usize = VALUE_WORDS * (OBJECT_VALUES * MAX_NUMBERS);

// What field `k` of an object holds.
pub fn get(fields: &[u32], object: usize, k: usize) -> Value
    requires { FieldThere fields.now object k }
    ensures { result ≡ field_at fields.now object k }
{
    let at = VALUE_WORDS * (OBJECT_VALUES * object + k);
    values::value_of(fields[at], fields[at + NUMBER_AT])
}

// The two words of field `k` of an object are replaced.
fn store(fields: &mut [u32], object: usize, k: usize, tag: u32, number: u32)
    requires { FieldThere fields.old object k }
    ensures { fields.new ≡ stored_in fields.old object k tag number }
{
    let at = VALUE_WORDS * (OBJECT_VALUES * object + k);
    fields[at] = tag;
    fields[at + NUMBER_AT] = number;
}

// Field `k` of an object gets a value.
pub fn set(fields: &mut [u32], object: usize, k: usize, value: Value)
    requires { FieldThere fields.old object k }
    ensures { FieldSet fields.old fields.new object k value }
{
    store(
        fields,
        object,
        k,
        values::tag_of(value) as u32,
        values::number_in(value),
    );
}

// Whether words that keep what was read have field `k` of an object.
pub fn is_known(fields: &[u32], object: usize, k: usize) -> bool
    requires { FieldThere fields.now object k }
    ensures { result ≡ known_at fields.now object k }
{
    fields[VALUE_WORDS * (OBJECT_VALUES * object + k)] != UNREAD
}

// What was read of field `k` of an object is kept.
pub fn remember(fields: &mut [u32], object: usize, k: usize, value: Value)
    requires { FieldThere fields.old object k }
    ensures { Remembered fields.old fields.new object k value }
{
    store(
        fields,
        object,
        k,
        values::known_tag(value),
        values::number_in(value),
    );
}

// What was read of field `k` of an object is forgotten.
pub fn forget(fields: &mut [u32], object: usize, k: usize)
    requires { FieldThere fields.old object k }
    ensures { Forgotten fields.old fields.new object k }
{
    fields[VALUE_WORDS * (OBJECT_VALUES * object + k)] = UNREAD;
}

// The script of an object by its existence: 0 where it is not there.
pub fn script_in(fields: &[u32], object: usize) -> u32
    requires { FieldThere fields.now object existence }
    ensures { result ≡ script_in fields.now object }
{
    values::number_in(get(fields, object, EXISTENCE_AT))
}

// Whether an object is there, by its existence.
pub fn is_there(fields: &[u32], object: usize) -> bool
    requires { FieldThere fields.now object existence }
    ensures { result ≡ is_there (field_at fields.now object existence) }
{
    script_in(fields, object) != 0
}

// Whether an object was never made, by its existence.
fn is_unmade(fields: &[u32], object: usize) -> bool
    requires { FieldThere fields.now object existence }
    ensures { result ≡ is_unmade (field_at fields.now object existence) }
{
    matches!(get(fields, object, EXISTENCE_AT), None)
}

// How many of the numbers that a level gives are used.
pub fn used_of(fields: &[u32], level: usize) -> usize
    requires { (field_words ≤ length fields.now) × (level < max_levels) }
    ensures { result ≡ used_of (field_at fields.now) level }
{
    (0..MADE_OBJECTS)
        .find(|i| is_unmade(fields, FIRST_MADE + MADE_OBJECTS * level + *i))
        .unwrap_or(MADE_OBJECTS)
}

// The existence of an object at first: those of the session are there, with their own methods.
pub fn first_existence(object: usize) -> Value
    requires { object < max_numbers }
    ensures { result ≡ existence_at_first object }
{
    if object < FIRST_MADE {
        Some(object as u32 + 1)
    } else {
        None
    }
}

// What field `k` of an object holds at first: NIL, if it is none of the session's.
pub fn first_field(session: &[u8], masks: &[u16], object: usize, k: usize) -> Value
    requires { Leveled session.now masks.now × Numbered session.now object × (k < fieldCount) }
    ensures { result ≡ initially (program_of session.now) object k }
{
    if object < FIRST_MADE {
        contents::field_of(session, masks, object, k)
    } else {
        None
    }
}

// What a value of an object of the session is at first: a field, or its existence.
fn first_of(session: &Session, object: usize, k: usize) -> Value
    requires { (object < object_count session.now.bytes.now) × (k ≤ existence) }
    ensures { result ≡ initially (program_of session.now.bytes.now) object k }
{
    if k < FIELDS {
        session.field_of(object, k)
    } else {
        first_existence(object)
    }
}

// Each object of the session gets its first fields and its existence.
pub fn fill(session: &Session, fields: &mut [u32])
    requires { field_words ≤ length fields.old }
    ensures { Filled session.now.bytes.now fields.old fields.new }
{
    for object in 0..session.object_count() {
        for k in 0..OBJECT_VALUES {
            set(fields, object, k, first_of(session, object, k));
        }
    }
}
