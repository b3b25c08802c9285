// What the program prints, as ASCII. Each function writes to a text from `at` on, or from its start, and
// returns the place behind what it wrote.
#![tactic(auto)]

ghost use Rattle.std.specs.Prelude.{◌+◌, ◌*◌, ◌≤◌, ◌<◌, ◌≡◌, length};
ghost use Rattle.session.specs.Record.{record_count};
ghost use Rattle.lists.specs.Placed.{Placed, Written};
ghost use Rattle.text.specs.Lines.{hex_of, line_of, line_size, lines_of, decimal_of, decimal_size, refusal_line, refusal_size};

use ascii::{digit, put, put_all};
use session::limits::RECORD_BYTES;
use session_records::record;

// The characters of a record's line: two for each byte, and a line feed.
pub const LINE_BYTES: usize = 2 * RECORD_BYTES + 1;

// The most digits of a number of 64 bits, for which io::decimal asks room.
const DIGITS: usize = 20;

// The digit of ten: the digits are in lower case.
const TEN: u8 = b'a';

// Writes the two hexadecimal digits of a byte.
fn put_byte(text: &mut [u8], at: usize, byte: u8) -> usize
    requires { at + 2 ≤ length text.old }
    ensures { Placed (hex_of byte) at text.old text.new result }
{
    let next = put(text, at, digit(byte / 16, TEN));
    put(text, next, digit(byte % 16, TEN))
}

// Writes the line of a record.
fn put_record(text: &mut [u8], at: usize, record: &[u8; RECORD_BYTES]) -> usize
    requires { at + line_size ≤ length text.old }
    ensures { Placed (line_of record.now) at text.old text.new result }
{
    let mut next = at;
    for byte in record {
        next = put_byte(text, next, *byte);
    }
    put(text, next, b'\n')
}

// Writes a line for each record of some bytes, from the text's start on.
pub fn put_records(text: &mut [u8], bytes: &[u8]) -> usize
    requires { line_size * record_count bytes.now ≤ length text.old }
    ensures { Written (lines_of bytes.now) text.old text.new result }
{
    let mut at = 0;
    for record in record::records(bytes) {
        at = put_record(text, at, record);
    }
    at
}

// Writes a number in decimal.
fn put_decimal(text: &mut [u8], at: usize, number: u32) -> usize
    requires { at + decimal_size ≤ length text.old }
    ensures { Placed (decimal_of number) at text.old text.new result }
{
    let mut digits = [0u8; DIGITS];
    let count = io::decimal(number as u64, &mut digits);
    put_all(text, at, &digits[..count])
}

// Writes the line of a refusal, from the text's start on.
pub fn put_refusal(text: &mut [u8], number: u32, place: u32) -> usize
    requires { refusal_size ≤ length text.old }
    ensures { Written (refusal_line number place) text.old text.new result }
{
    let blank = put_decimal(text, 0, number);
    let second = put(text, blank, b' ');
    let end = put_decimal(text, second, place);
    put(text, end, b'\n')
}
