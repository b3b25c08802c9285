// The plain run. All lists of steps that finish give the same result, so its order is free: level after level
// by the conservative rule, each until all its managers have ended.
#![tactic(auto)]

ghost use Rattle.std.specs.Prelude.{◌≡◌, ◌<◌, true, length, MatchOption};
ghost use Rattle.model.specs.Schedule.{initial_state};
ghost use Rattle.permits.specs.Permits.{Countable, lowest_of};
ghost use Rattle.level_state.specs.Representation.{words_of};
ghost use Rattle.level_state.specs.Ends.{Quiescent, SameRest};
ghost use Rattle.fork_runs.specs.Levels.{LevelReady, LevelDone, Done};
ghost use Rattle.plain.specs.Lowest.{NoneLowest};

use contents::Session;
use level_state::RunState;
use tallies::Tallies;

// Makes the steps of a level that may step by the conservative rule until all its managers have ended. It may
// until then: no level below it gets a manager, since a fork goes to one that strictly dominates this one.
fn run_level(session: &Session, state: &mut RunState, work: &mut [u32], level: usize)
    requires { LevelReady session.now.bytes.now (words_of state.old work.old) level }
    ensures { LevelDone session.now.bytes.now (words_of state.old work.old) (words_of state.new work.new) level }
{
    while state.tallies.waiting(level) > 0 {
        fork_runs::run_next(session, state, work, level);
    }
}

// The first level that may step by the conservative rule.
fn first_lowest(masks: &[u16], tallies: &Tallies) -> Option<usize>
    requires { Countable masks.now tallies.now }
    ensures { MatchOption result (NoneLowest masks.now tallies.now) (λ level. (level < length masks.now) × (lowest_of masks.now tallies.now level ≡ true)) }
{
    (0..masks.len()).find(|level| permits::is_lowest(masks, tallies, *level))
}

// Makes scheduler steps from the session as read in until all managers have ended.
pub fn run(session: &Session, state: &mut RunState, work: &mut [u32])
    requires { Quiescent session.now.bytes.now (words_of state.old work.old) (initial_state session.now.bytes.now) }
    ensures { Done session.now.bytes.now (words_of state.new work.new) × SameRest work.old work.new }
{
    while let Some(level) = first_lowest(session.masks, &state.tallies) {
        run_level(session, state, work, level);
    }
}
