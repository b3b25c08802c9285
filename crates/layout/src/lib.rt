// The text of a page, as ASCII. Each function writes to a page from `at` on and returns the place behind what it
// wrote.
#![tactic(auto)]

ghost use Rattle.std.specs.Prelude.{◌+◌, ◌^◌, ◌≤◌, ◌<◌, ◌≡◌, length, replicate};
ghost use Rattle.session.specs.Limits.{record_bytes, max_levels};
ghost use Rattle.lists.specs.Lists.{tab, joined};
ghost use Rattle.session.specs.Record.{record_at, record_count};
ghost use Rattle.model.specs.Limits.{line_bytes, result_bytes};
ghost use Rattle.model.specs.Result.{half_of};
ghost use Rattle.lists.specs.Placed.{Placed, Written};
ghost use Rattle.text.specs.Text.{blank, hex_in, aligned_in, field_in, apart_in, front_of, line_of, total_line, average_line, page_of, front_bytes};
ghost use Rattle.layout.specs.Shown.{shown_line, shown_steps, Tallied, shown_average, average_in};

use ascii::{digit, put, put_all};
use model::LINE_BYTES;
use session::limits::{MAX_LEVELS, RECORD_BYTES};
use session_records::record;

// The kind of a history's record, and where its numbers stand in it.
const HISTORY: u8 = 6;

const KIND: usize = 0;

const LEVEL: usize = 1;

const ENDING: usize = 2;

const WRITES: usize = 3;

const STAMP: usize = 4;

const FIRST: usize = 8;

const LAST: usize = 10;

const STEPS: usize = 12;

// How many columns each number has, and the word of a line that is not a history's.
const STAMP_PLACES: usize = 8;

const LEVEL_COLUMNS: usize = 1;

const ENDING_COLUMNS: usize = 1;

const WRITES_COLUMNS: usize = 2;

const WRITE_STAMP_COLUMNS: usize = 3;

const STEPS_COLUMNS: usize = 3;

const WORD_COLUMNS: usize = 5;

const TOTAL_COLUMNS: usize = 5;

const QUOTIENT_COLUMNS: usize = 3;

const REMAINDER_COLUMNS: usize = 3;

// The blanks between the word and the number of the total's line.
const TOTAL_GAP: usize = LINE_BYTES - 1 - WORD_COLUMNS - TOTAL_COLUMNS;

// The blanks before the quotient and the remainder of a level: from column 8 and from column 20 on.
const QUOTIENT_GAP: usize = 17 - 8;

const REMAINDER_GAP: usize = 25 - 20;

// The digit of ten: the digits are in upper case.
const TEN: u8 = b'A';

// Writes blanks.
fn put_blanks(page: &mut [u8], at: usize, count: usize) -> usize
    requires { at + count ≤ length page.old }
    ensures { Placed (replicate count blank) at page.old page.new result }
{
    let end = at + count;
    page[at..end].fill(b' ');
    end
}

// Writes the last hexadecimal digits of a number, as many as there are places.
fn put_hex(page: &mut [u8], at: usize, places: usize, n: u32) -> usize
    requires { at + places ≤ length page.old }
    ensures { Placed (hex_in places n) at page.old page.new result }
{
    if places == 0 {
        return at;
    }
    let next = put_hex(page, at, places - 1, n / 16);
    put(page, next, digit((n % 16) as u8, TEN))
}

// Writes a number in decimal, right-aligned in its columns.
fn put_aligned(page: &mut [u8], at: usize, columns: usize, n: u32) -> usize
    requires { at + columns ≤ length page.old }
    ensures { Placed (aligned_in columns n) at page.old page.new result }
{
    if columns == 0 {
        return at;
    }
    if n < 10 {
        let next = put_blanks(page, at, columns - 1);
        return put(page, next, digit(n as u8, TEN));
    }
    let next = put_aligned(page, at, columns - 1, n / 10);
    put(page, next, digit((n % 10) as u8, TEN))
}

// Writes a number behind a blank.
fn put_field(page: &mut [u8], at: usize, columns: usize, n: u32) -> usize
    requires { at + 1 + columns ≤ length page.old }
    ensures { Placed (field_in columns n) at page.old page.new result }
{
    let next = put(page, at, b' ');
    put_aligned(page, next, columns, n)
}

// Writes blanks and a number behind them.
fn put_apart(page: &mut [u8], at: usize, gap: usize, columns: usize, n: u32) -> usize
    requires { at + gap + columns ≤ length page.old }
    ensures { Placed (apart_in gap columns n) at page.old page.new result }
{
    let next = put_blanks(page, at, gap);
    put_aligned(page, next, columns, n)
}

// The number of 16 bits in the bytes from `k` on of a record of some bytes, by its number. "Numbers are little-endian".
fn half_in(bytes: &[u8], number: usize, k: usize) -> u32
    requires { (number < record_count bytes.now) × (k + 2 ≤ record_bytes) }
    ensures { (result ≡ half_of (record_at bytes.now number) k) × (result < 2 ^ 16) }
{
    u16::from_le_bytes([
        record::byte_at(bytes, number, k),
        record::byte_at(bytes, number, k + 1),
    ]) as u32
}

// Writes the fork stamp, the level, the ending and the writes of a history.
#[tactic(auto, using(text::proofs::Laws::Lengths::hex_length, text::proofs::Laws::Lengths::aligned_length))]
fn put_front(page: &mut [u8], at: usize, bytes: &[u8], number: usize) -> usize
    requires { (at + front_bytes ≤ length page.old) × (number < record_count bytes.now) }
    ensures { Placed (front_of (record_at bytes.now number)) at page.old page.new result }
{
    let stamp = record::word_at(bytes, number, STAMP);
    let level = record::byte_at(bytes, number, LEVEL) as u32;
    let ending = record::byte_at(bytes, number, ENDING) as u32;
    let writes = record::byte_at(bytes, number, WRITES) as u32;
    let second = put_hex(page, at, STAMP_PLACES, stamp);
    let third = put_field(page, second, LEVEL_COLUMNS, level);
    let fourth = put_field(page, third, ENDING_COLUMNS, ending);
    put_field(page, fourth, WRITES_COLUMNS, writes)
}

// Writes the line of a history.
#[tactic(auto, using(text::proofs::Laws::Lengths::aligned_length, text::proofs::Laws::Lengths::front_length))]
fn put_line(page: &mut [u8], at: usize, bytes: &[u8], number: usize) -> usize
    requires { (at + line_bytes ≤ length page.old) × (number < record_count bytes.now) }
    ensures { Placed (line_of (record_at bytes.now number)) at page.old page.new result }
{
    let first = half_in(bytes, number, FIRST);
    let last = half_in(bytes, number, LAST);
    let steps = half_in(bytes, number, STEPS);
    let second = put_front(page, at, bytes, number);
    let third = put_field(page, second, WRITE_STAMP_COLUMNS, first);
    let fourth = put_field(page, third, WRITE_STAMP_COLUMNS, last);
    let end = put_field(page, fourth, STEPS_COLUMNS, steps);
    put(page, end, b'\n')
}

// Writes the line of the total.
fn put_total(page: &mut [u8], at: usize, total: u32) -> usize
    requires { at + line_bytes ≤ length page.old }
    ensures { Placed (total_line total) at page.old page.new result }
{
    let second = put_all(page, at, b"TOTAL");
    let end = put_apart(page, second, TOTAL_GAP, TOTAL_COLUMNS, total);
    put(page, end, b'\n')
}

// Writes the line of a level.
#[tactic(auto, using(text::proofs::Laws::Lengths::aligned_length, text::proofs::Laws::Lengths::apart_length))]
fn put_average(page: &mut [u8], at: usize, level: u32, quotient: u32, remainder: u32) -> usize
    requires { at + line_bytes ≤ length page.old }
    ensures { Placed (average_line level quotient remainder) at page.old page.new result }
{
    let second = put_all(page, at, b"LEVEL");
    let third = put_field(page, second, LEVEL_COLUMNS, level);
    let fourth = put_apart(page, third, QUOTIENT_GAP, QUOTIENT_COLUMNS, quotient);
    let end = put_apart(page, fourth, REMAINDER_GAP, REMAINDER_COLUMNS, remainder);
    put(page, end, b'\n')
}

// Writes the line of a record that is a history's, and nothing of another.
fn put_shown(page: &mut [u8], at: usize, bytes: &[u8], number: usize) -> usize
    requires { (at + length (shown_line (record_at bytes.now number)) ≤ length page.old) × (number < record_count bytes.now) }
    ensures { Placed (shown_line (record_at bytes.now number)) at page.old page.new result }
{
    if record::byte_at(bytes, number, KIND) != HISTORY {
        return at;
    }
    put_line(page, at, bytes, number)
}

// The script steps of a record that is a history's, and 0 of another.
fn steps_shown(bytes: &[u8], number: usize) -> u32
    requires { number < record_count bytes.now }
    ensures { (result ≡ shown_steps (record_at bytes.now number)) × (result < 2 ^ 16) }
{
    if record::byte_at(bytes, number, KIND) != HISTORY {
        return 0;
    }
    half_in(bytes, number, STEPS)
}

// Adds a record that is a history's to the steps and the managers of its level. Every level of a session is below
// MAX_LEVELS; a record that names another has no line of a level.
fn tally(
    steps: &mut [u32; MAX_LEVELS],
    managers: &mut [u32; MAX_LEVELS],
    bytes: &[u8],
    number: usize,
)
    requires { Tallied bytes.now number steps.old managers.old × (number < record_count bytes.now) × (length bytes.now ≤ result_bytes) }
    ensures { Tallied bytes.now (number + 1) steps.new managers.new }
{
    if record::byte_at(bytes, number, KIND) != HISTORY {
        return;
    }
    let level = record::byte_at(bytes, number, LEVEL) as usize;
    if level >= MAX_LEVELS {
        return;
    }
    steps[level] += half_in(bytes, number, STEPS);
    managers[level] += 1;
}

// Writes the line of a level that had managers, with the mean of their steps, and nothing of another.
fn put_shown_average(page: &mut [u8], at: usize, level: u32, steps: u32, managers: u32) -> usize
    requires { at + length (shown_average level steps managers) ≤ length page.old }
    ensures { Placed (shown_average level steps managers) at page.old page.new result }
{
    if managers == 0 {
        return at;
    }
    let quotient = steps / managers;
    put_average(page, at, level, quotient, steps - quotient * managers)
}

// Writes the lines of the levels, by their number.
fn put_averages(
    page: &mut [u8],
    at: usize,
    steps: &[u32; MAX_LEVELS],
    managers: &[u32; MAX_LEVELS],
) -> usize
    requires { at + length (joined (tab max_levels (average_in steps.now managers.now))) ≤ length page.old }
    ensures { Placed (joined (tab max_levels (average_in steps.now managers.now))) at page.old page.new result }
{
    let mut next = at;
    for level in 0..MAX_LEVELS {
        next = put_shown_average(page, next, level as u32, steps[level], managers[level]);
    }
    next
}

// Writes the page of some result bytes: a line for each history, in their order, the total over these, and a line for
// each level that they are of.
pub fn write_page(page: &mut [u8], bytes: &[u8]) -> usize
    requires { (length (page_of bytes.now) ≤ length page.old) × (length bytes.now ≤ result_bytes) }
    ensures { Written (page_of bytes.now) page.old page.new result }
{
    let mut at = 0;
    let mut total = 0;
    let mut steps = [0u32; MAX_LEVELS];
    let mut managers = [0u32; MAX_LEVELS];
    for number in 0..bytes.len() / RECORD_BYTES {
        at = put_shown(page, at, bytes, number);
        total += steps_shown(bytes, number);
        tally(&mut steps, &mut managers, bytes, number);
    }
    let next = put_total(page, at, total);
    put_averages(page, next, &steps, &managers)
}
