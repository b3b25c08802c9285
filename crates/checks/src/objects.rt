// Question 6: the objects.
ghost use Rattle.std.specs.Prelude.{◌≡◌, ◌+◌, ◌≤◌, ◌<◌};
ghost use Rattle.lists.specs.Range.{all};
ghost use Rattle.session.specs.Limits.{fields};
ghost use Rattle.session.specs.Record.{record_at, record_count};
ghost use Rattle.session.specs.Questions.{field_valid, object_valid};

use session::limits::{FIELD_MASKS, FIELDS};
use session_records::{masks, places, record};

// Whether field `k` of the object in record `r` holds a number, or is NIL with its bytes 0.
fn is_field_valid(session: &[u8], r: usize, k: usize) -> bool
    requires { (r < record_count session.now) × (k < fields) }
    ensures { result ≡ field_valid (record_at session.now r) k }
{
    let mask = record::byte_at(session, r, places::FIELD_MASK);
    (mask >> k) % 2 == 1
        || record::are_unused(
            session,
            r,
            masks::FIRST_OF_FIELD[k],
            masks::SECOND_OF_FIELD[k],
        )
}

// Whether the object in record `r` is valid among so many levels.
#[tactic(auto, unfolding(session::specs::Questions::object_valid))]
fn is_valid(session: &[u8], r: usize, levels: usize) -> bool
    requires { r < record_count session.now }
    ensures { result ≡ object_valid levels (record_at session.now r) }
{
    (record::byte_at(session, r, places::LEVEL) as usize) < levels
        && record::byte_at(session, r, places::FIELD_MASK) < FIELD_MASKS
        && (0..FIELDS).all(|k| is_field_valid(session, r, k))
}

// Whether the `count` objects from record `first` on are valid among so many levels.
pub fn are_valid(session: &[u8], first: usize, count: usize, levels: usize) -> bool
    requires { first + count ≤ record_count session.now }
    ensures { result ≡ all count (λ i. object_valid levels (record_at session.now (first + i))) }
{
    (0..count).all(|i| is_valid(session, first + i, levels))
}
