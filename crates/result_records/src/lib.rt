// Result records by value.
#![tactic(auto)]

ghost use Rattle.std.specs.Prelude.{◌≡◌, ◌∷◌, ◌++◌, ◌%◌, ◌^◌, ◌≤◌, ◌<◌, length};
ghost use Rattle.session.specs.Limits.{max_numbers, max_levels};
ghost use Rattle.scripts.specs.Ending.{number_of_ending};
ghost use Rattle.fields.specs.Limits.{field_words};
ghost use Rattle.fields.specs.Fields.{field_at};
ghost use Rattle.model.specs.Limits.{max_managers};
ghost use Rattle.model.specs.Result.{bytes2, bytes4, object_record, history_record, reply_record};
ghost use Rattle.rows.specs.Rows.{row_at};
ghost use Rattle.histories.specs.Limits.{row_words, history_words};
ghost use Rattle.histories.specs.Histories.{ending_of, history_of_row, history_place};

use fields::values;
use histories::places;
use session::Value;
use session::limits::RECORD_BYTES;

// The kinds of result records.
const OBJECT_KIND: u8 = 5;

const HISTORY_KIND: u8 = 6;

const REPLY_KIND: u8 = 7;

// A record has its kind, three bytes and three groups of this many.
const GROUP: usize = 4;

// The lower two bytes of each of two numbers, the lowest first.
fn two(m: u32, n: u32) -> [u8; GROUP]
    ensures { result ≡ bytes2 m ++ bytes2 n }
{
    let [a, b, _, _] = m.to_le_bytes();
    let [c, d, _, _] = n.to_le_bytes();
    [a, b, c, d]
}

// A number's four bytes, the lowest first.
fn four(n: u32) -> [u8; GROUP]
    ensures { result ≡ bytes4 n }
{
    n.to_le_bytes()
}

// A record of a kind, its next three bytes and three groups of four.
fn record_of(
    kind: u8,
    second: u8,
    third: u8,
    fourth: u8,
    a: [u8; GROUP],
    b: [u8; GROUP],
    c: [u8; GROUP],
) -> [u8; RECORD_BYTES]
    ensures { result ≡ kind ∷ second ∷ third ∷ fourth ∷ a ++ b ++ c }
{
    [
        kind, second, third, fourth, a[0], a[1], a[2], a[3], b[0], b[1], b[2], b[3], c[0], c[1],
        c[2], c[3],
    ]
}

// Kind 5, of an object at a level.
pub fn object_record(fields: &[u32], object: usize, level: usize) -> [u8; RECORD_BYTES]
    requires { (field_words ≤ length fields.now) × (object < max_numbers) × (level < max_levels) }
    ensures { result ≡ object_record object level (field_at fields.now object) }
{
    let v0 = fields::get(fields, object, 0);
    let v1 = fields::get(fields, object, 1);
    let v2 = fields::get(fields, object, 2);
    let mask = values::tag_of(v0) + 2 * values::tag_of(v1) + 4 * values::tag_of(v2);
    record_of(
        OBJECT_KIND,
        object as u8,
        level as u8,
        mask,
        four(values::number_in(v0)),
        four(values::number_in(v1)),
        four(values::number_in(v2)),
    )
}

// The number of the ending that a word stands for.
fn ending_byte(ending: u32) -> u8
    ensures { result ≡ number_of_ending (ending_of ending) }
{
    match ending {
        0 => 0,
        1 => 1,
        _ => 2,
    }
}

// Kind 6, of history `i` of a level.
pub fn history_record(histories: &[u32], level: usize, i: usize) -> [u8; RECORD_BYTES]
    requires { (history_words ≤ length histories.now) × (level < max_levels) × (i < max_managers) }
    ensures { result ≡ history_record level (history_of_row (row_at histories.now (history_place level i) row_words)) }
{
    let at = places::place_of(level, i);
    record_of(
        HISTORY_KIND,
        level as u8,
        ending_byte(histories[at + places::ENDING]),
        (histories[at + places::WRITES] & 0xff) as u8,
        four(histories[at + places::STAMP]),
        two(histories[at + places::FIRST], histories[at + places::LAST]),
        two(histories[at + places::STEPS], 0),
    )
}

// Kind 7, of the root's level and reply.
pub fn reply_record(level: usize, reply: Value) -> [u8; RECORD_BYTES]
    requires { level < max_levels }
    ensures { result ≡ reply_record level reply }
{
    let tag = values::tag_of(reply);
    let number = four(values::number_in(reply));
    record_of(REPLY_KIND, level as u8, 0, tag, number, four(0), four(0))
}
