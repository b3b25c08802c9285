// The depth-first run: a fork that is made and kept runs whole, before its sender continues.
#![tactic(auto)]

ghost use Rattle.std.specs.Prelude.{◌≤◌, ◌≡◌, [], length};
ghost use Rattle.session.specs.Parts.{masks_of};
ghost use Rattle.session.specs.Questions.{verdict_of, Accepted};
ghost use Rattle.model.specs.Limits.{result_bytes};
ghost use Rattle.calls.specs.Entries.{deep, Answers};
ghost use Rattle.calls.specs.Refusals.{number_told, place_told, count_told};
ghost use Rattle.progress.specs.Representation.{Represents};
ghost use Rattle.depth_first.specs.Runs.{RootFork, initial_progress, Shown, RanOver};

use calls::Refusal;
use contents::Session;
use fields::FIELD_WORDS;
use histories::limits::HISTORY_WORDS;
use progress::{Fork, Progress};
use session::limits::{MAX_LEVELS, MAX_METHODS};
use tallies::Tallies;

// The fork of the root message.
fn root_fork(session: &Session) -> Fork
    ensures { RootFork session.now.bytes.now result }
{
    let message = session.root();
    let level = session.level_of(message.object as usize);
    Fork {
        level: level as u8,
        stamp: 0,
        depth: 0,
        message,
    }
}

// Runs a session over words that represent its start, writes the records that a clearance is shown, and
// returns how many bytes they are.
fn run_over(session: &Session, progress: &mut Progress, clearance: usize, res: &mut [u8]) -> usize
    requires represents { Represents session.now.bytes.now (initial_progress session.now.bytes.now) progress.old }
    requires result_bytes_in_bounds { result_bytes ≤ length res.old }
    ensures { RanOver session.now.bytes.now clearance progress.old progress.new res.old res.new result }
{
    let root = root_fork(session);
    let level = root.level as usize;
    let left = session.masks.len();
    descent::run_manager(session, progress, left, root);
    results::write(
        session,
        &progress.current,
        &progress.ended,
        &progress.tallies,
        clearance,
        level,
        res,
    )
}

// Runs an accepted session, writes the records that a clearance is shown, and returns how many bytes
// they are.
pub fn run(bytes: &[u8], masks: &[u16], clearance: usize, res: &mut [u8]) -> usize
    requires { (verdict_of bytes.now ≡ Accepted) × (masks.now ≡ masks_of bytes.now) × (result_bytes ≤ length res.old) }
    ensures { Shown bytes.now clearance res.old res.new result }
{
    let mut index = [0u16; MAX_METHODS + 1];
    let session = Session::new(bytes, masks, &mut index);
    let mut progress = Progress {
        current: [0; FIELD_WORDS],
        ended: [0; HISTORY_WORDS],
        tallies: Tallies::first(),
    };
    fields::fill(&session, &mut progress.current);
    run_over(&session, &mut progress, clearance, res)
}

// Runs a session depth first, writes what a clearance is shown of it, and returns how many bytes that is: Check's
// questions, 9 and 11 of any bytes, of any length and content, and then the run.
pub fn run_depth_first(session: &[u8], clearance: usize, res: &mut [u8]) -> Result<u32, Refusal>
    ensures { Answers (deep (record { session = session.entry.now; clearance = clearance; work = []; buffer = res.old })) (number_told result) (place_told result) (count_told result) [] res.new }
{
    let mut masks = [0u16; MAX_LEVELS];
    let levels = opening::open(session, &mut masks)?;
    opening::lent_refusal(levels, clearance, true, res.len())?;
    let count = run(session, &masks[..levels], clearance, res);
    Ok(count as u32)
}
