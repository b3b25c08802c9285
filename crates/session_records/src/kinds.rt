// Question 2: the kinds of the records, and how many there are of each.
ghost use Rattle.std.specs.Prelude.{◌≡◌, true, ◌≤◌};
ghost use Rattle.session.specs.Record.{records_of, kind_of};
ghost use Rattle.session_records.specs.Counting.{Counted};
ghost use Rattle.lists.specs.Lists.{count_below};
ghost use Rattle.session.specs.Questions.{kinds_rise, question2};

use crate::{Layout, places, record};
use session::limits::RECORD_BYTES;

// "Kind 1, level", "Kind 2, object", "Kind 3, script step", "Kind 4, root message".
const LEVEL_RECORD: u8 = 1;

const OBJECT_RECORD: u8 = 2;

const STEP_RECORD: u8 = 3;

const ROOT_RECORD: u8 = 4;

// Whether kinds are 1 to 4 and never falling.
pub fn kinds_rise(session: &[u8]) -> bool
    ensures { result ≡ kinds_rise session.now }
{
    let records = record::records(session);
    records.iter().all(|record| (LEVEL_RECORD..=ROOT_RECORD).contains(&record[places::KIND]))
        && records.is_sorted_by_key(|record| record[places::KIND])
}

// How many records have a kind below `kind`. They stand first.
fn count_below(session: &[u8], kind: u8) -> usize
    requires { kinds_rise session.now ≡ true }
    ensures { result ≡ count_below kind_of kind (records_of session.now) }
{
    record::records(session).partition_point(|record| record[places::KIND] < kind)
}

// How many levels, objects and steps there are, of a session whose kinds never fall.
pub fn count_kinds(session: &[u8]) -> Layout
    requires { kinds_rise session.now ≡ true }
    ensures { Counted session.now result.levels result.objects result.steps }
{
    let objects = count_below(session, OBJECT_RECORD);
    let steps = count_below(session, STEP_RECORD);
    let root = count_below(session, ROOT_RECORD);
    Layout {
        levels: objects,
        objects: steps - objects,
        steps: root - steps,
    }
}

// The rest of question 2: whether there is a level, an object, and exactly one root message.
#[tactic(auto, using(session::proofs::Laws::Parts::question2_is))]
pub fn are_present(session: &[u8], layout: Layout) -> bool
    requires session_value { kinds_rise session.now ≡ true }
    requires counted { Counted session.now layout.levels layout.objects layout.steps }
    ensures { result ≡ question2 session.now }
{
    let Layout {
        levels,
        objects,
        steps,
    } = layout;
    levels >= 1 && objects >= 1 && levels + objects + steps + 1 == session.len() / RECORD_BYTES
}
