// What a scheduler step at a level is made of, but for the script step itself: that is the manager's own.
#![tactic(auto)]

ghost use Rattle.std.specs.Prelude.{◌+◌, ◌<◌, ◌≡◌};
ghost use Rattle.scripts.specs.Limits.{write_stamps};
ghost use Rattle.cores.specs.Core.{effect_of};
ghost use Rattle.managers.specs.Manager.{manager_of};
ghost use Rattle.managers.specs.Steps.{WellFormed};
ghost use Rattle.level_state.specs.Representation.{words_of};
ghost use Rattle.level_state.specs.Steps.{parts_of, ForkReady, Forked, PerformReady, Performed, SettleReady, CoreSettled, StepDone, StartReady, Started};

use contents::Session;
use cores::{Core, Effect};
use counts::Counts;
use level_state::RunState;
use managers::Manager;
use session::Message;
use std::slice;

// The manager that runs at a level, with this write stamp and so many forks made, forks a message at
// level `above`.
pub fn fork<C: Counts>(
    tallies: &mut [C],
    queue: &mut [u32],
    level: usize,
    stamp: u16,
    forks: u8,
    above: usize,
    message: Message,
)
    requires { ForkReady (C.numbers tallies.old) queue.old level forks above }
    ensures { Forked (C.numbers tallies.old) (C.numbers tallies.new) queue.old queue.new level stamp forks above message }
{
    let i = C::ended(tallies, level);
    let depth = queues::depth_at(queue, level, i);
    let child = queues::child_stamp(queues::stamp_at(queue, level, i), depth, forks);
    let started = C::started(tallies, above);
    let waiting = C::waiting(tallies, above);
    // A fork that is dropped changes nothing, and no row is made of it.
    if queues::drops(queue, above, started, waiting, child) {
        return;
    }
    let row = queues::child_row(queue, level, i, child, depth + 1, stamp, message);
    let waiting = queues::arrive(queue, above, started, waiting, &row);
    C::set_waiting(tallies, above, waiting);
}

// What a script step of the manager that runs at a level did outside it. The manager started with write
// stamp `first`, and has made so many forks with that step: a fork carries the stamp that it had before.
pub fn perform(
    state: &mut RunState,
    work: &mut [u32],
    level: usize,
    first: u16,
    forks: u8,
    effect: Effect,
)
    requires { PerformReady state.old.current state.old.tallies state.old.queue work.old level first forks (effect_of effect) }
    ensures performed { Performed (parts_of (words_of state.old work.old)) (parts_of (words_of state.new work.new)) level first forks (effect_of effect) }
    ensures rest { state.new.ended ≡ state.old.ended }
{
    match effect {
        Effect::Write {
            object,
            field,
            value,
        } => {
            let stamp = first + forks as u16;
            level_writes::write(
                &mut state.current,
                slice::from_mut(&mut state.tallies),
                work,
                level,
                stamp,
                object,
                field,
                value,
            );
        }
        Effect::Fork {
            level: above,
            object,
            name,
            parameter,
        } => {
            let message = Message {
                object,
                name,
                parameter,
            };
            let made = forks - 1;
            let stamp = first + made as u16;
            fork(
                slice::from_mut(&mut state.tallies),
                &mut state.queue,
                level,
                stamp,
                made,
                above as usize,
                message,
            );
        }
        _ => {}
    }
}

// The manager that runs at a level has made its steps. If it has ended its history is kept, and none runs
// there any more.
pub fn settle(state: &mut RunState, level: usize, core: Core)
    requires settle_ready { SettleReady state.old.ended state.old.tallies state.old.queue level }
    requires forks_bound { core.first + core.forks < write_stamps }
    ensures settled { CoreSettled state.old.ended state.new.ended state.old.tallies state.new.tallies state.old.queue level core }
    ensures rest { (state.new.current ≡ state.old.current) × (state.new.queue ≡ state.old.queue) }
{
    let ending = core.ending;
    if cores::is_running(ending) {
        return;
    }
    let stamp = queues::stamp_at(&state.queue, level, state.tallies.ended(level));
    let history = core.ended(stamp);
    state.tallies.close(&mut state.ended, level, history);
    state.tallies.stop(level);
}

// The manager that runs at a level has made a script step: what the step did outside it is done, and if it has
// ended its history is kept.
pub fn done(state: &mut RunState, work: &mut [u32], level: usize, core: Core)
    requires perform_ready { PerformReady state.old.current state.old.tallies state.old.queue work.old level core.first core.forks (effect_of core.effect) }
    requires settle_ready { SettleReady state.old.ended state.old.tallies state.old.queue level }
    ensures { StepDone (words_of state.old work.old) (words_of state.new work.new) level core }
{
    let effect = core.effect;
    // Most steps do nothing outside: these are spared the call.
    if let Effect::Nothing = effect {
        settle(state, level, core);
        return;
    }
    perform(state, work, level, core.first, core.forks, effect);
    settle(state, level, core);
}

// Starts the fork of smallest stamp that waits at a level. One whose method is empty has ended at once, and
// none runs there then.
pub fn start(session: &Session, state: &mut RunState, work: &[u32], level: usize) -> Manager
    requires { StartReady session.now.bytes.now session.now.masks.now session.now.index.now (words_of state.old work.now) level }
    ensures started { Started session.now.bytes.now (words_of state.old work.now) state.new.ended state.new.tallies level (manager_of result) × WellFormed session.now.bytes.now result }
    ensures rest { (state.new.current ≡ state.old.current) × (state.new.queue ≡ state.old.queue) }
{
    let message = queues::message_at(&state.queue, level, state.tallies.ended(level));
    let next = state.tallies.next(level) as u16;
    let script = level_reads::script_of(
        session.bytes,
        session.masks,
        &state.current,
        &state.ended,
        slice::from_ref(&state.tallies),
        &state.queue,
        work,
        level,
        message.object,
    );
    let m = Manager::start(session, level as u8, next, message, script);
    state.tallies.start(level);
    let core = m.core;
    settle(state, level, core);
    m
}
