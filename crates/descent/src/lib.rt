// The run of a fork: a script step calls fork, fork runs a manager, a manager makes script steps. With
// each manager the levels left above fall.
#![tactic(auto)]

ghost use Rattle.std.specs.Prelude.{◌<◌, get_or};
ghost use Rattle.model.specs.Limits.{max_managers};
ghost use Rattle.progress.specs.Representation.{RepresentsSome};
ghost use Rattle.descent.specs.Forks.{Runnable, Performable, Performed, ForkDone, RunDone};

use contents::Session;
use cores::Effect;
use fields::reads::Sight;
use progress::{Fork, Progress};
use scripts::Ended;
use session::Message;

// Does what a script step did outside its manager, with the whole run of the fork that it may have made.
// `fork` is the manager's own, and `forks` is how many it has made, this one included.
#[cycle(perform_run_kept_run_manager)]
fn perform(
    session: &Session,
    progress: &mut Progress,
    left: usize,
    fork: Fork,
    forks: u8,
    effect: Effect,
)
    requires represents_some { RepresentsSome session.now.bytes.now progress.old }
    requires performable { Performable session.now.bytes.now left fork forks effect }
    ensures { Performed session.now.bytes.now left fork forks effect progress.old progress.new }
{
    match effect {
        Effect::Write {
            object,
            field,
            value,
        } => fields::set(
            &mut progress.current,
            object as usize,
            field as usize,
            value,
        ),
        Effect::Fork {
            level,
            object,
            name,
            parameter,
        } => {
            let stamp = queues::child_stamp(fork.stamp, fork.depth, forks - 1);
            let depth = fork.depth + 1;
            let message = Message {
                object,
                name,
                parameter,
            };
            let child = Fork {
                level,
                stamp,
                depth,
                message,
            };
            run_kept(session, progress, left, child);
        }
        // Anything else is nothing outside its manager.
        _ => {}
    }
}

// Runs a fork that is made, if its level keeps it.
#[cycle(perform_run_kept_run_manager)]
fn run_kept(session: &Session, progress: &mut Progress, left: usize, fork: Fork)
    requires represents_some { RepresentsSome session.now.bytes.now progress.old }
    requires runnable { Runnable session.now.bytes.now left fork }
    ensures { ForkDone session.now.bytes.now left fork progress.old progress.new }
{
    if progress.tallies.has_room(fork.level as usize) {
        run_manager(session, progress, left, fork);
    }
}

// Runs the manager of a fork that its level keeps to its end, and returns what is kept of it. How many
// script steps it made is there too: as many as the definition of the depth-first run makes.
#[cycle(perform_run_kept_run_manager)]
pub fn run_manager(session: &Session, progress: &mut Progress, left: usize, fork: Fork) -> Ended
    requires represents_some { RepresentsSome session.now.bytes.now progress.old }
    requires runnable { Runnable session.now.bytes.now left fork × (get_or progress.old.tallies fork.level 0 < max_managers) }
    ensures { RunDone session.now.bytes.now left fork progress.old progress.new result }
{
    let level = fork.level as usize;
    let mut m = progress.start(session, fork);
    let core = m.core;
    if left == 0 {
        return core.ended(fork.stamp);
    }
    let limit = scripts::MAX_SCRIPT_STEPS;
    let mut ending = core.ending;
    while cores::is_running(ending) {
        // Every READ is answered by the fields: what was read before is never asked.
        let same = progress.tallies.is_unchanged();
        let sight = Sight {
            current: &progress.current,
            cache: &progress.current,
            all: true,
            unchanged: same,
        };
        m = m.advance(session, &sight, limit);
        let core = m.core;
        let effect = core.effect;
        if let Effect::Change = effect {
            m = progress.change(session, m);
            let changed = m.core;
            ending = changed.ending;
            continue;
        }
        perform(session, progress, left - 1, fork, core.forks, effect);
        ending = core.ending;
    }
    let core = m.core;
    let history = core.ended(fork.stamp);
    progress.tallies.close(&mut progress.ended, level, history);
    history
}
