// What an accepted session says: its objects, its methods and its root message.
//
// The check makes the level table, and `index_methods` the method index. With them each function below costs a few
// reads; only the count of objects is found by halving.
#![tactic(auto)]

ghost use Rattle.std.specs.Prelude.{◌≡◌, ◌++◌, ℕ, ◌+◌, ◌/◌, ◌%◌, ◌≤◌, ◌<◌, length, drop};
ghost use Rattle.session.specs.Limits.{max_methods, names, fields};
ghost use Rattle.session.specs.Parts.{level_count, object_count, step_count, masks_of};
ghost use Rattle.session.specs.Questions.{verdict_of, Accepted};
ghost use Rattle.session.specs.Meaning.{Numbered, level_of, field_of, step_at, root_of};
ghost use Rattle.contents.specs.Reading.{method_start, index_of, MethodAt, IsMethod};

use session::limits::{FIRST_MADE, MADE_OBJECTS, MAX_METHODS, NAMES, RECORD_BYTES};
use session::{Message, Step, Value};
use session_records::{kinds, places, record};

// An accepted session as it was lent, with its level table and its method index.
#[derive(Clone, Copy)]
pub struct Session<'a> {
    pub bytes: &'a [u8],
    // The mask of each level.
    pub masks: &'a [u16],
    // Where each method starts, by object and then name, and behind them where the last one ends.
    pub index: &'a [u16],
    ghost accepted: { verdict_of bytes.now ≡ Accepted },
    ghost masks_are: { masks.now ≡ masks_of bytes.now },
    ghost index_is: { index.now ≡ index_of bytes.now },
}

// Where the steps of a method stand: the record of the first, and how many there are.
#[derive(Clone, Copy)]
pub struct Method {
    pub start: usize,
    pub count: usize,
}

// The record at which the method of a key starts, or would start. `at` is no step's record after it,
// and `end` is the root's record.
fn method_start(session: &[u8], at: usize, end: usize, key: usize) -> usize
    requires session_value { verdict_of session.now ≡ Accepted }
    requires session_bound { (level_count session.now + object_count session.now ≤ at) × (at ≤ method_start session.now key) }
    requires end_value { end ≡ level_count session.now + object_count session.now + step_count session.now }
    ensures { result ≡ method_start session.now key }
{
    for r in at..end {
        if key <= record::key_at(session, r) {
            return r;
        }
    }
    end
}

// Writes where each method starts to the front of `index`, and behind them where the last one ends.
pub fn index_methods(session: &[u8], index: &mut [u16])
    requires { (verdict_of session.now ≡ Accepted) × (max_methods + 1 ≤ length index.old) }
    ensures { index.new ≡ index_of session.now ++ drop (max_methods + 1) index.old }
{
    let layout = kinds::count_kinds(session);
    let mut at = layout.levels + layout.objects;
    let end = at + layout.steps;
    for slot in 0..MAX_METHODS + 1 {
        at = method_start(
            session,
            at,
            end,
            record::KEY_OBJECT * (slot / NAMES) + slot % NAMES,
        );
        index[slot] = at as u16;
    }
}

// The level of an object: one of the session's has it in its record, one that a level can make in its number.
pub fn level_of(session: &[u8], masks: &[u16], object: usize) -> usize
    requires { (verdict_of session.now ≡ Accepted) × (masks.now ≡ masks_of session.now) × Numbered session.now object }
    ensures { result ≡ level_of session.now object }
{
    if object < FIRST_MADE {
        record::byte_at(session, masks.len() + object, places::LEVEL) as usize
    } else {
        (object - FIRST_MADE) / MADE_OBJECTS
    }
}

// What field `k` of an object of the session holds at first.
pub fn field_of(session: &[u8], masks: &[u16], object: usize, k: usize) -> Value
    requires { (verdict_of session.now ≡ Accepted) × (masks.now ≡ masks_of session.now) × (object < object_count session.now) × (k < fields) }
    ensures { result ≡ field_of session.now object k }
{
    let r = masks.len() + object;
    let mask = record::byte_at(session, r, places::FIELD_MASK);
    if (mask >> k) % 2 == 1 {
        let at = places::FIRST_FIELD + places::WORD_BYTES * k;
        Some(record::word_at(session, r, at))
    } else {
        None
    }
}

// The root message.
pub fn root(session: &[u8]) -> Message
    requires { verdict_of session.now ≡ Accepted }
    ensures { result ≡ root_of session.now }
{
    let r = session.len() / RECORD_BYTES - 1;
    let object = record::byte_at(session, r, places::OBJECT);
    let name = record::byte_at(session, r, places::NAME);
    let parameter = if record::byte_at(session, r, places::TAG) == places::NUMBER_TAG {
        Some(record::word_at(session, r, places::PARAMETER))
    } else {
        None
    };
    Message {
        object,
        name,
        parameter,
    }
}

impl<'a> Session<'a> {
    // An accepted session with its level table, whose method index is written to the front of `index`.
    pub fn new(bytes: &'a [u8], masks: &'a [u16], index: &'a mut [u16]) -> Session<'a>
        requires accepted { verdict_of bytes.now ≡ Accepted }
        requires masks_are { masks.now ≡ masks_of bytes.now }
        requires room { max_methods + 1 ≤ length index.old }
        ensures { result.bytes.now ≡ bytes.entry.now }
    {
        index_methods(bytes, index);
        Session {
            bytes,
            masks,
            index: &index[..MAX_METHODS + 1],
        }
    }
}

impl Session<'_> {
    // How many objects there are.
    pub fn object_count(&self) -> usize
        ensures { result ≡ object_count self.now.bytes.now }
    {
        kinds::count_kinds(self.bytes).objects
    }

    // The level of an object.
    pub fn level_of(&self, object: usize) -> usize
        requires { Numbered self.now.bytes.now object }
        ensures { result ≡ level_of self.now.bytes.now object }
    {
        level_of(self.bytes, self.masks, object)
    }

    // What field `k` of an object of the session holds at first.
    pub fn field_of(&self, object: usize, k: usize) -> Value
        requires { (object < object_count self.now.bytes.now) × (k < fields) }
        ensures { result ≡ field_of self.now.bytes.now object k }
    {
        field_of(self.bytes, self.masks, object, k)
    }

    // Where the steps of a method stand, by its number: 16 times that of its object, and its name. A run that
    // keeps it reads the index once a message.
    pub fn method_of(&self, slot: usize) -> Method
        requires { slot / names < object_count self.now.bytes.now }
        ensures { MethodAt self.now.bytes.now (slot / names) (slot % names) result.start result.count }
    {
        let start = self.index[slot] as usize;
        let end = self.index[slot + 1] as usize;
        let count = end - start;
        Method { start, count }
    }

    // Step `j` of a method of which it is known where its steps stand, or the script's end.
    pub fn step_in_method(&self, start: usize, count: usize, j: usize) -> Step
        requires { IsMethod self.now.bytes.now start count }
        ensures { ((object name : ℕ) → MethodAt self.now.bytes.now object name start count → result ≡ step_at self.now.bytes.now object name j) × (count ≡ 0 → result ≡ Step.End) }
    {
        if j < count {
            record::step_in(self.bytes, start + j)
        } else {
            Step::End
        }
    }

    // The root message.
    pub fn root(&self) -> Message
        ensures { result ≡ root_of self.now.bytes.now }
    {
        root(self.bytes)
    }
}
