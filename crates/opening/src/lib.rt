// What every entry does before a run: its session is checked and its level table made, once; the clearance and the
// lent slices are measured. And what a refusal is told by: its number and its place.
#![tactic(auto)]

ghost use Rattle.std.specs.Prelude.{◌≤◌, ◌≡◌, leb, length};
ghost use Rattle.session.specs.Limits.{max_levels};
ghost use Rattle.model.specs.Limits.{work_numbers};
ghost use Rattle.calls.specs.Refusals.{number_of_refusal, place_of_refusal};
ghost use Rattle.opening.specs.Opening.{Opens, LentRefusal};

use calls::Refusal;
use model::{RESULT_BYTES, WORK_NUMBERS};

// Why a session is not opened: what refuses the call; and how many levels its level table has, 0 where the table is
// not made.
#[derive(Clone, Copy)]
pub struct Unopened {
    pub refusal: Refusal,
    pub levels: usize,
}

impl From<Unopened> for Refusal {
    ghost from_gives = { λ unopened refusal. refusal ≡ unopened.refusal };

    fn from(unopened: Unopened) -> Refusal {
        unopened.refusal
    }
}

// The documents' number of a refusal: that of the question that says no.
pub fn number_of(refusal: Refusal) -> u32
    ensures { result ≡ number_of_refusal refusal }
{
    match refusal {
        Refusal::Session(question) => checks::number_of_question(question),
        Refusal::Clearance => 9,
        Refusal::ShortWork => 10,
        Refusal::ShortResult => 11,
        Refusal::Absent { .. } => 12,
        Refusal::Idle { .. } => 13,
        Refusal::Blocked { .. } => 14,
        Refusal::Unended => 15,
        Refusal::ShortPage => 16,
    }
}

// The place of a refusal: that of the step in its timetable, or 0 where no step is refused.
pub fn place_of(refusal: Refusal) -> u32
    ensures { result ≡ place_of_refusal refusal }
{
    match refusal {
        Refusal::Absent { place } | Refusal::Idle { place } | Refusal::Blocked { place } => place,
        _ => 0,
    }
}

// Puts Check's questions of any bytes, and tells how many levels the session's level table has. Where all say yes the
// table stands at the front of `masks`.
pub fn open(session: &[u8], masks: &mut [u16]) -> Result<usize, Unopened>
    requires { max_levels ≤ length masks.old }
    ensures { Opens session.now masks.old masks.new result }
{
    match checks::check_into(session, masks) {
        Ok(levels) => Ok(levels),
        Err(refused) => Err(Unopened {
            refusal: Refusal::Session(refused.question),
            levels: refused.levels,
        }),
    }
}

// Question 10, of a work slice of so many numbers.
pub fn is_work(numbers: usize) -> bool
    ensures { result ≡ leb work_numbers numbers }
{
    numbers >= WORK_NUMBERS
}

// Questions 9 to 11, of a session with so many levels and a result buffer of so many bytes. `ten` is what question 10
// says, or yes where it is not put.
pub fn lent_refusal(levels: usize, clearance: usize, ten: bool, bytes: usize) -> Result<(), Refusal>
    ensures { LentRefusal levels clearance ten bytes result }
{
    if clearance >= levels {
        return Err(Refusal::Clearance);
    }
    if !ten {
        return Err(Refusal::ShortWork);
    }
    if bytes < RESULT_BYTES {
        return Err(Refusal::ShortResult);
    }
    Ok(())
}
