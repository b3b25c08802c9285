// Question 7: the script steps.
#![tactic(auto)]

mod reader;

ghost use Rattle.std.specs.Prelude.{◌≡◌, ◌&&◌, ◌+◌, ◌-◌, ◌≤◌, ◌<◌, ltb};
ghost use Rattle.lists.specs.Range.{all};
ghost use Rattle.session.specs.Limits.{max_levels, max_method};
ghost use Rattle.session.specs.Record.{record_at, record_count, records_from};
ghost use Rattle.session.specs.Parts.{key_of};
ghost use Rattle.session.specs.Questions.{is_number, operands_fit, unused_bytes, step_valid, scripts_valid};
ghost use Rattle.session_records.specs.Words.{Masks};
ghost use Rattle.methods.specs.Methods.{method_end, is_named, is_fit, OneMethod};

use session::Step;
use session::limits::{FIELDS, FIRST_MADE, MADE_OBJECTS, MAX_METHOD, NAME_COUNT, REGISTERS};
use session_records::{masks, places, record};

// How many levels and objects a session has: its objects, and those that a level can make, have numbers.
#[derive(Clone, Copy)]
struct Numbers {
    levels: usize,
    objects: usize,
    ghost few: { levels ≤ max_levels },
}

impl Numbers {
    // Whether one of them has the number `n`.
    #[tactic(auto, unfolding(session::specs::Questions::is_number))]
    fn have(self, n: u8) -> bool
        ensures { result ≡ is_number self.levels self.objects n }
    {
        let n = n as usize;
        n < self.objects || (FIRST_MADE..FIRST_MADE + MADE_OBJECTS * self.levels).contains(&n)
    }
}

// Whether the operands of a step fit among the numbers of objects and in a method of `count` steps.
#[tactic(auto, unfolding(session::specs::Questions::operands_fit))]
fn operands_fit(step: Step, numbers: Numbers, count: usize) -> bool
    ensures { result ≡ operands_fit numbers.levels numbers.objects count step }
{
    match step {
        Step::End => false,
        Step::Set { a, n: _ } => a < REGISTERS,
        Step::Add { a, b } => a < REGISTERS && b < REGISTERS,
        Step::Jump { a, b } => a < REGISTERS && b as usize <= count,
        Step::Read { a, b } | Step::Write { a, b } => a < REGISTERS && (b as usize) < FIELDS,
        Step::Send { a, b, c } => a < REGISTERS && b < NAME_COUNT && numbers.have(c),
        Step::Quit { a } | Step::Create { a } => a < REGISTERS,
        Step::Withdraw => true,
    }
}

// The masks of the bytes that a step leaves unused, in the two words of its record.
#[tactic(auto, unfolding(session::specs::Questions::unused_bytes, session_records::specs::Words::joined_from, session_records::specs::Words::kept, lists::specs::Lists::tab))]
fn unused_masks(step: Step) -> (u64, u64)
    ensures { Masks (unused_bytes step) result.0 result.1 }
{
    match step {
        Step::Set { .. } => (masks::FROM_OPERAND_B, masks::FROM_LAST_WORD),
        Step::Add { .. } | Step::Jump { .. } | Step::Read { .. } | Step::Write { .. } => {
            (masks::FROM_OPERAND_C, masks::ALL)
        }
        Step::Send { .. } => (masks::FROM_OPERANDS_END, masks::ALL),
        Step::Quit { .. } | Step::Create { .. } => (masks::FROM_OPERAND_B, masks::ALL),
        Step::End | Step::Withdraw => (masks::FROM_OPERAND_A, masks::ALL),
    }
}

// Whether the object of the step in record `r` is one of so many, and its name at most 15.
fn is_named(session: &[u8], r: usize, objects: usize) -> bool
    requires { r < record_count session.now }
    ensures { result ≡ is_named objects (record_at session.now r) }
{
    (record::byte_at(session, r, places::OBJECT) as usize) < objects
        && record::byte_at(session, r, places::NAME) < NAME_COUNT
}

// Whether the rest of the step in record `r` is valid among the numbers of objects and in a method of `count` steps.
fn is_fit(session: &[u8], r: usize, numbers: Numbers, count: usize) -> bool
    requires { r < record_count session.now }
    ensures { result ≡ is_fit numbers.levels numbers.objects count (record_at session.now r) }
{
    let step = record::step_in(session, r);
    let (first, second) = unused_masks(step);
    operands_fit(step, numbers, count) && record::are_unused(session, r, first, second)
}

// The first record after `r` and before `end` that is of another method than `r`, or `end`.
fn method_end(session: &[u8], r: usize, end: usize) -> usize
    requires { (r < end) × (end ≤ record_count session.now) }
    ensures { result ≡ method_end session.now r end }
{
    let key = record::key_at(session, r);
    (r + 1..end)
        .find(|i| record::key_at(session, *i) != key)
        .unwrap_or(end)
}

// Whether the steps of one method, `count` records from `first` on, are valid among the numbers of objects.
// They have one object and one name, which are looked at once.
fn is_method_valid(session: &[u8], first: usize, count: usize, numbers: Numbers) -> bool
    requires count_bound { (first + count ≤ record_count session.now) × (count ≤ max_method) }
    requires one_method { OneMethod session.now first count }
    ensures { result ≡ all count (λ i. step_valid numbers.levels numbers.objects count (record_at session.now (first + i))) }
{
    is_named(session, first, numbers.objects)
        && (0..count).all(|i| is_fit(session, first + i, numbers, count))
}

// Whether record `next` is before `end` and its (object, name) below that of record `at`.
fn falls(session: &[u8], at: usize, next: usize, end: usize) -> bool
    requires { (at ≤ next) × (end ≤ record_count session.now) }
    ensures { result ≡ (ltb next end && ltb (key_of (record_at session.now next)) (key_of (record_at session.now at))) }
{
    next < end && reader::falls_after(session, at, next - at)
}

// Question 7, of the steps from record `first` up to `end`: method by method.
pub fn are_valid(session: &[u8], first: usize, end: usize, levels: usize, objects: usize) -> bool
    requires { (first ≤ end) × (end ≤ record_count session.now) × (levels ≤ max_levels) }
    ensures { result ≡ scripts_valid levels objects (records_from session.now first (end - first)) }
{
    let numbers = Numbers { levels, objects };
    let mut at = first;
    while at < end {
        let next = method_end(session, at, end);
        let count = next - at;
        if MAX_METHOD < count {
            return false;
        }
        if !is_method_valid(session, at, count, numbers) {
            return false;
        }
        if falls(session, at, next, end) {
            return false;
        }
        at = next;
    }
    true
}
