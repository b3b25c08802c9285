// Check: the questions that document 01's Check uses, put in their order of any bytes.
#![tactic(auto)]

mod levels;
mod objects;
mod root;

ghost use Rattle.std.specs.Prelude.{◌≡◌, true, ◌++◌, length, drop, ◌≤◌};
ghost use Rattle.session.specs.Limits.{max_levels};
ghost use Rattle.session.specs.Parts.{level_count, masks_of};
ghost use Rattle.session.specs.Questions.{question1, question2, question3, asked, first_no, verdict_of, number_of_question, number_of_verdict};
ghost use Rattle.session_records.specs.Counting.{Counted};
ghost use Rattle.checks.specs.Checking.{question_of, Checks};

use dominance::Fault;
use session::Question;
use session::limits::{MAX_LEVELS, MAX_RECORDS, RECORD_BYTES};
use session_records::{Layout, kinds};

// Why a session is not accepted: the first question that says no; and how many levels its level table has, 0 where
// the table is not made.
#[derive(Clone, Copy)]
pub struct Refused {
    pub question: Question,
    pub levels: usize,
}

// Questions 6 to 8, of a session of which questions 2 and 3 said yes.
fn check_contents(session: &[u8], layout: Layout) -> Result<(), Question>
    requires session_value { question2 session.now ≡ true }
    requires counted { Counted session.now layout.levels layout.objects layout.steps }
    requires session_value_2 { question3 session.now ≡ true }
    ensures { result ≡ first_no (drop 6 (asked session.now)) }
{
    let Layout {
        levels,
        objects,
        steps,
    } = layout;
    let first = levels + objects;
    let root = first + steps;
    if !objects::are_valid(session, levels, objects, levels) {
        return Err(Question::Object);
    }
    if !methods::are_valid(session, first, root, levels, objects) {
        return Err(Question::Script);
    }
    if root::is_valid(session, root, objects) {
        Ok(())
    } else {
        Err(Question::Root)
    }
}

// The question of a session that what refuses its level table is.
fn of_table(fault: Fault) -> Question
    ensures { result ≡ question_of fault }
{
    match fault {
        Fault::NotOrdered => Question::NotOrdered,
        Fault::NoJoin => Question::NoJoin,
        Fault::NoMeet => Question::NoMeet,
    }
}

// Questions 4, 5, 17 and 6 to 8, of a session of which questions 2 and 3 said yes. The masks of its levels are
// written to the front of `masks`.
fn check_levels(session: &[u8], layout: Layout, masks: &mut [u16]) -> Result<(), Question>
    requires session_value { (question2 session.now ≡ true) × (question3 session.now ≡ true) }
    requires counted { Counted session.now layout.levels layout.objects layout.steps }
    requires max_levels_in_bounds { max_levels ≤ length masks.old }
    ensures { (result ≡ first_no (drop 3 (asked session.now))) × (masks.new ≡ masks_of session.now ++ drop (level_count session.now) masks.old) }
{
    let Layout {
        levels,
        objects,
        ..
    } = layout;
    levels::fill_masks(session, levels, masks);
    lattice::check(&masks[..levels]).map_err(of_table)?;
    check_contents(session, layout)
}

// Question 1.
fn is_whole(session: &[u8]) -> bool
    ensures { result ≡ question1 session.now }
{
    let n = session.len();
    if n % RECORD_BYTES != 0 {
        return false;
    }
    if n / RECORD_BYTES < 1 {
        return false;
    }
    n / RECORD_BYTES <= MAX_RECORDS
}

// What refuses a session whose level table is not made.
fn untabled(question: Question) -> Refused
    ensures { (result.question ≡ question) × (result.levels ≡ 0) }
{
    Refused {
        question,
        levels: 0,
    }
}

// Checks a session: what questions 1 to 8 and 17 say of any bytes, of any length and content, and how many levels its
// level table has. Where 1 to 3 say yes the table stands at the front of `masks` afterwards, whatever the later ones
// say. Nothing else in `masks` changes.
pub fn check_into(session: &[u8], masks: &mut [u16]) -> Result<usize, Refused>
    requires { max_levels ≤ length masks.old }
    ensures { Checks session.now masks.old masks.new result }
{
    if !is_whole(session) {
        return Err(untabled(Question::Length));
    }
    if !kinds::kinds_rise(session) {
        return Err(untabled(Question::Kinds));
    }
    let layout = kinds::count_kinds(session);
    if !kinds::are_present(session, layout) {
        return Err(untabled(Question::Kinds));
    }
    if !levels::are_numbered(session, layout) {
        return Err(untabled(Question::Numbering));
    }
    let levels = layout.levels;
    match check_levels(session, layout, masks) {
        Ok(()) => Ok(levels),
        Err(question) => Err(Refused { question, levels }),
    }
}

// Checks a session, for a caller that needs no level table: what questions 1 to 8 and 17 say of any
// bytes, of any length and content.
pub fn check(session: &[u8]) -> Result<(), Question>
    ensures { result ≡ verdict_of session.now }
{
    let mut masks = [0u16; MAX_LEVELS];
    match check_into(session, &mut masks) {
        Ok(_) => Ok(()),
        Err(refused) => Err(refused.question),
    }
}

// The documents' number of a question.
pub fn number_of_question(question: Question) -> u32
    ensures { result ≡ number_of_question question }
{
    match question {
        Question::Length => 1,
        Question::Kinds => 2,
        Question::Numbering => 3,
        Question::NotOrdered => 4,
        Question::NoJoin => 5,
        Question::NoMeet => 17,
        Question::Object => 6,
        Question::Script => 7,
        Question::Root => 8,
    }
}

// The documents' number of a verdict: 0 where all questions say yes.
pub fn number_of(verdict: Result<(), Question>) -> u32
    ensures { result ≡ number_of_verdict verdict }
{
    match verdict {
        Ok(()) => 0,
        Err(question) => number_of_question(question),
    }
}
