// The timetabled run and the plain run.
#![tactic(auto)]

ghost use Rattle.std.specs.Prelude.{◌≡◌, option_copied};
ghost use Rattle.session.specs.Meaning.{level_of, root_object};
ghost use Rattle.scripts.specs.Valid.{Leveled};
ghost use Rattle.calls.specs.Entries.{timetabled, plain as plainly, Answers};
ghost use Rattle.calls.specs.Refusals.{number_told, place_told, count_told};
ghost use Rattle.model.specs.Schedule.{initial_state};
ghost use Rattle.results.specs.Writing.{Ready};
ghost use Rattle.level_state.specs.Representation.{words_of};
ghost use Rattle.level_state.specs.Ends.{Quiescent, Ends, SameRest};
ghost use Rattle.scheduler.specs.Runs.{list_of, Fresh, InitialWords, Shows, RunReady, ListDone};

use calls::Refusal;
use contents::Session;
use fields::FIELD_WORDS;
use histories::limits::HISTORY_WORDS;
use level_state::RunState;
use queues::QUEUE_WORDS;
use session::limits::{MAX_LEVELS, MAX_METHODS};
use tallies::Tallies;

// Fills the state of a run with the session as read in: the first fields and existence of its objects, and the
// root's fork, which waits. Returns the root's level.
fn read_in(session: &Session, state: &mut RunState) -> usize
    requires { Fresh state.old.current state.old.tallies state.old.queue }
    ensures initial { InitialWords session.now.bytes.now state.new.current state.new.tallies state.new.queue result }
    ensures rest { state.new.ended ≡ state.old.ended }
{
    fields::fill(session, &mut state.current);
    let message = session.root();
    let level = session.level_of(message.object as usize);
    let row = queues::root_row(message);
    let waiting = queues::arrive(&mut state.queue, level, 0, 0, &row);
    state.tallies.set_waiting(level, waiting);
    level
}

// Writes the records of a run that a clearance is shown, and returns how many bytes they are.
fn show(session: &Session, state: &RunState, clearance: usize, level: usize, res: &mut [u8]) -> u32
    requires { Ready session.now.bytes.now session.now.masks.now state.now.current state.now.ended state.now.tallies level res.old }
    ensures { Shows session.now.bytes.now state.now.current state.now.ended state.now.tallies clearance level res.old res.new result }
{
    let count = results::write(
        session,
        &state.current,
        &state.ended,
        &state.tallies,
        clearance,
        level,
        res,
    );
    count as u32
}

// Makes scheduler steps from the session as read in: those of a timetable, if there is one, of which one can be
// refused; else plainly, until all managers have ended.
fn make_steps(
    session: &Session,
    timetable: Option<&[u8]>,
    state: &mut RunState,
    work: &mut [u32],
) -> Result<(), Refusal>
    requires { Quiescent session.now.bytes.now (words_of state.old work.old) (initial_state session.now.bytes.now) }
    ensures { Ends session.now.bytes.now (list_of session.now.bytes.now (option_copied timetable.entry)) (words_of state.new work.new) result × SameRest work.old work.new }
{
    match timetable {
        Some(steps) => timetabled::run(session, steps, state, work),
        None => {
            plain::run(session, state, work);
            Ok(())
        }
    }
}

// Runs an accepted session, by a timetable or plainly, and writes the records that a clearance is shown.
fn run_accepted(
    session: &Session,
    timetable: Option<&[u8]>,
    clearance: usize,
    work: &mut [u32],
    res: &mut [u8],
) -> Result<u32, Refusal>
    requires { RunReady work.old res.old }
    ensures { ListDone session.now.bytes.now (list_of session.now.bytes.now (option_copied timetable.entry)) clearance work.old work.new res.old res.new result }
{
    let mut state = RunState {
        current: [0; FIELD_WORDS],
        ended: [0; HISTORY_WORDS],
        tallies: Tallies::first(),
        queue: [0; QUEUE_WORDS],
    };
    let level = read_in(session, &mut state);
    let end = make_steps(session, timetable, &mut state, work);
    versions::clear(work);
    end?;
    Ok(show(session, &state, clearance, level, res))
}

// Runs a session that is opened, with its level table: questions 9 to 15. The method index is made after 9 to 11, so
// a call that they refuse does not pay for it.
fn run_opened(
    bytes: &[u8],
    masks: &[u16],
    timetable: Option<&[u8]>,
    clearance: usize,
    work: &mut [u32],
    res: &mut [u8],
) -> Result<u32, Refusal>
    requires { Leveled bytes.now masks.now }
    ensures { Answers (timetabled (record { session = bytes.entry.now; clearance = clearance; work = work.old; buffer = res.old }) (list_of bytes.entry.now (option_copied timetable.entry))) (number_told result) (place_told result) (count_told result) work.new res.new }
{
    let ten = opening::is_work(work.len());
    opening::lent_refusal(masks.len(), clearance, ten, res.len())?;
    let mut index = [0u16; MAX_METHODS + 1];
    let session = Session::new(bytes, masks, &mut index);
    run_accepted(&session, timetable, clearance, work, res)
}

// Runs a session, by a timetable or plainly, and writes what a clearance is shown of it: Check's questions and
// 9 to 15.
fn run_session(
    bytes: &[u8],
    timetable: Option<&[u8]>,
    clearance: usize,
    work: &mut [u32],
    res: &mut [u8],
) -> Result<u32, Refusal>
    ensures { Answers (timetabled (record { session = bytes.entry.now; clearance = clearance; work = work.old; buffer = res.old }) (list_of bytes.entry.now (option_copied timetable.entry))) (number_told result) (place_told result) (count_told result) work.new res.new }
{
    let mut masks = [0u16; MAX_LEVELS];
    let levels = opening::open(bytes, &mut masks)?;
    run_opened(bytes, &masks[..levels], timetable, clearance, work, res)
}

// Runs a session by a timetable and writes what a clearance is shown of it: Check's questions and 9 to 15 of any
// bytes, of any length and content, whatever the work slice holds.
pub fn run_timetable(
    session: &[u8],
    timetable: &[u8],
    clearance: usize,
    work: &mut [u32],
    res: &mut [u8],
) -> Result<u32, Refusal>
    ensures { Answers (timetabled (record { session = session.entry.now; clearance = clearance; work = work.old; buffer = res.old }) timetable.now) (number_told result) (place_told result) (count_told result) work.new res.new }
{
    run_session(session, Some(timetable), clearance, work, res)
}

// Runs a session plainly and writes what a clearance is shown of it: Check's questions and 9 to 11 of any bytes, of
// any length and content, whatever the work slice holds.
pub fn run_plain(
    session: &[u8],
    clearance: usize,
    work: &mut [u32],
    res: &mut [u8],
) -> Result<u32, Refusal>
    ensures { Answers (plainly (record { session = session.entry.now; clearance = clearance; work = work.old; buffer = res.old })) (number_told result) (place_told result) (count_told result) work.new res.new }
{
    run_session(session, None, clearance, work, res)
}

// Runs a session plainly for a reader cleared to the level of its root's object.
pub fn run_for_root(bytes: &[u8], work: &mut [u32], res: &mut [u8]) -> Result<u32, Refusal>
    ensures { Answers (plainly (record { session = bytes.entry.now; clearance = level_of bytes.entry.now (root_object bytes.entry.now); work = work.old; buffer = res.old })) (number_told result) (place_told result) (count_told result) work.new res.new }
{
    let mut masks = [0u16; MAX_LEVELS];
    let levels = opening::open(bytes, &mut masks)?;
    let root = contents::root(bytes);
    let clearance = contents::level_of(bytes, &masks[..levels], root.object as usize);
    run_opened(bytes, &masks[..levels], None, clearance, work, res)
}
