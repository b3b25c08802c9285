// The versions of fields and of existence that the managers of each level wrote, in the lent work slice.
//
// Each level has a log of its own. A write adds a version to its end, and write stamps never fall. So a
// read finds which versions are not above its bound by halving, and goes through those backward.
#![tactic(auto)]

ghost use Rattle.std.specs.Prelude.{◌≡◌, ◌+◌, ◌<◌, ◌≤◌, length, nat_lt};
ghost use Rattle.session.specs.Limits.{max_levels};
ghost use Rattle.model.specs.Limits.{work_numbers};
ghost use Rattle.model.specs.Level.{newest_to};
ghost use Rattle.calls.specs.Entries.{cleared};
ghost use Rattle.versions.specs.Log.{number_place, max_versions, log_start, key_of, version_at, log_of, Within};
ghost use Rattle.versions.specs.Order.{stamp_at, StampsRise, PartitionPoint};
ghost use Rattle.versions.specs.Changes.{Appended};

use fields::values;
use model::{MAX_MANAGERS, WORK_NUMBERS};
use scripts::MAX_WRITES;
use session::Value;

// How many numbers a version has, and which of them is the value's number. The other one, the first,
// holds the rest: versionNumbers, numberPlace.
const VERSION_NUMBERS: usize = 2;

const NUMBER: usize = 1;

// How many versions a level has room for, and how many numbers its log has: maxVersions, logNumbers.
const MAX_VERSIONS: usize = MAX_MANAGERS * MAX_WRITES as usize;

const LOG_NUMBERS: usize = MAX_VERSIONS * VERSION_NUMBERS;

// What one more is worth in a version's first number, of the write stamp, the field and the object:
// stampUnit, fieldUnit, objectUnit. Below the write stamp, which has 16 bits, stands the tag. The field has
// 2 bits: 3 is existence.
const STAMP: u32 = 2;

const FIELD: u32 = STAMP << 16;

const OBJECT: u32 = FIELD << 2;

// What a version's first number holds for its object and field.
fn key_of(object: u8, field: u8) -> u32
    ensures { result ≡ key_of object field }
{
    OBJECT * object as u32 + FIELD * field as u32
}

// Adds a version to the log of a level, which has `count` versions.
pub fn append(
    work: &mut [u32],
    level: usize,
    count: usize,
    stamp: u16,
    object: u8,
    field: u8,
    value: Value,
)
    requires { Within work.old level (count + 1) field }
    ensures { Appended work.old work.new level count (record { stamp = stamp; object = object; field = field; value = value }) }
{
    let at = LOG_NUMBERS * level + VERSION_NUMBERS * count;
    work[at] = key_of(object, field) + STAMP * stamp as u32 + values::tag_of(value) as u32;
    work[at + NUMBER] = values::number_in(value);
}

// The value of the version at a place.
#[tactic(auto, unfolding(crate::specs::Log::version_of))]
fn value_at(work: &[u32], at: usize) -> Value
    requires { at + number_place < length work.now }
    ensures { result ≡ (version_at work.now at).value }
{
    values::value_of(work[at] % STAMP, work[at + NUMBER])
}

// Whether version `i`, counted from the oldest on, of the log of a level is above a write stamp.
//
// Below its field and object, a version's first number holds the write stamp and the tag, which is at
// most 1: so at most STAMP * bound + 1 exactly where the version is not above the bound.
#[tactic(auto, using(crate::proofs::Laws::Order::stamp_test))]
fn is_above(work: &[u32], level: usize, i: usize, bound: u16) -> bool
    requires { (level < max_levels) × (i < max_versions) × (work_numbers ≤ length work.now) }
    ensures { result ≡ nat_lt bound (stamp_at work.now (log_start level) i) }
{
    let span = STAMP * bound as u32 + 1;
    work[LOG_NUMBERS * level + VERSION_NUMBERS * i] % FIELD > span
}

// How many versions, the oldest ones, of the log of a level, which has `count` versions, are not above a
// write stamp.
fn count_to(work: &[u32], level: usize, count: usize, bound: u16) -> usize
    requires level_lt_max_levels { (level < max_levels) × (count ≤ max_versions) × (work_numbers ≤ length work.now) }
    requires stamps_rise { StampsRise work.now (log_start level) count }
    ensures { PartitionPoint work.now (log_start level) count bound result }
{
    let mut low = 0;
    let mut high = count;
    while low < high {
        let middle = (low + high) / 2;
        if is_above(work, level, middle, bound) {
            high = middle;
        } else {
            low = middle + 1;
        }
    }
    low
}

// The newest version of a field not above a write stamp, in the log of a level, which has `count`
// versions in order of write stamp; or the initial value.
//
// A version's first number lies less than FIELD above the field's key exactly where it is one of the
// field. Below the key the difference wraps and is too large. So each version passed costs one
// comparison.
pub fn newest_to(
    work: &[u32],
    level: usize,
    count: usize,
    bound: u16,
    object: u8,
    field: u8,
    initial: Value,
) -> Value
    requires within { Within work.now level count field }
    requires stamps_rise { StampsRise work.now (log_start level) count }
    ensures { result ≡ newest_to bound initial object field (log_of work.now (log_start level) count) }
{
    let start = LOG_NUMBERS * level;
    let key = key_of(object, field);
    for n in (0..count_to(work, level, count, bound)).rev() {
        let packed = work[start + VERSION_NUMBERS * n];
        if packed.wrapping_sub(key) < FIELD {
            return value_at(work, start + VERSION_NUMBERS * n);
        }
    }
    initial
}

// Makes the numbers of all logs 0.
pub fn clear(work: &mut [u32])
    requires { work_numbers ≤ length work.old }
    ensures { work.new ≡ cleared work.old }
{
    work[..WORK_NUMBERS].fill(0);
}
