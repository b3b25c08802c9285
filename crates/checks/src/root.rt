// Question 8: the root message.
ghost use Rattle.std.specs.Prelude.{◌≡◌, ◌||◌, ◌<◌, eqb};
ghost use Rattle.session.specs.Record.{record_at, record_count, byte_of, zero_at, between};
ghost use Rattle.session.specs.Questions.{root_valid};

use session::limits::NAME_COUNT;
use session_records::{masks, places, record};

// Whether the parameter of the root message in record `r` is a number, or NIL with its bytes 0.
fn is_parameter_valid(session: &[u8], r: usize) -> bool
    requires { r < record_count session.now }
    ensures { result ≡ (eqb (byte_of (record_at session.now r) 3) 1 || zero_at (between 4 8) (record_at session.now r)) }
{
    record::byte_at(session, r, places::TAG) == places::NUMBER_TAG
        || record::are_unused(session, r, masks::FROM_PARAMETER, masks::NONE)
}

// Whether the root message in record `r` is valid among so many objects.
#[tactic(auto, unfolding(session::specs::Questions::root_valid, session_records::specs::Words::joined_from, session_records::specs::Words::kept, lists::specs::Lists::tab))]
pub fn is_valid(session: &[u8], r: usize, objects: usize) -> bool
    requires { r < record_count session.now }
    ensures { result ≡ root_valid objects (record_at session.now r) }
{
    (record::byte_at(session, r, places::OBJECT) as usize) < objects
        && record::byte_at(session, r, places::NAME) < NAME_COUNT
        && record::byte_at(session, r, places::TAG) <= places::NUMBER_TAG
        && is_parameter_valid(session, r)
        && record::are_unused(session, r, masks::NONE, masks::ALL)
}
