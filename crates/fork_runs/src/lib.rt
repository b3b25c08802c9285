// The run of the first fork that waits at a level, to its end.
#![tactic(auto)]

ghost use Rattle.level_state.specs.Representation.{words_of};
ghost use Rattle.fork_runs.specs.Running.{NextReady, NextDone};

use contents::Session;
use cores::Effect;
use fields::FIELD_WORDS;
use fields::reads::Sight;
use level_state::RunState;
use scripts::MAX_SCRIPT_STEPS;

// Starts the fork of smallest stamp that waits at a level that may step, and makes the steps of its manager
// until that has ended. Nobody else steps meanwhile, and the manager writes at its own level alone: what it has
// read elsewhere it would read again, so that is kept in `cache`.
pub fn run_next(session: &Session, state: &mut RunState, work: &mut [u32], level: usize)
    requires { NextReady session.now.bytes.now (words_of state.old work.old) level }
    ensures { NextDone session.now.bytes.now (words_of state.old work.old) (words_of state.new work.new) level }
{
    let mut cache = [0u32; FIELD_WORDS];
    let mut m = level_steps::start(session, state, work, level);
    let core = m.core;
    let mut ending = core.ending;
    while cores::is_running(ending) {
        let unchanged = state.tallies.is_unchanged();
        let sight = Sight {
            current: &state.current,
            cache: &cache,
            all: false,
            unchanged,
        };
        m = m.advance(session, &sight, MAX_SCRIPT_STEPS);
        let core = m.core;
        ending = core.ending;
        let effect = core.effect;
        if let Effect::Read { object, field } = effect {
            if field == fields::EXISTENCE {
                level_reads::answer_existence(session, state, work, &mut cache, level, object);
                continue;
            }
            level_reads::answer_read(session, state, work, &mut cache, level, object, field);
            continue;
        }
        if let Effect::Change = effect {
            m = level_writes::change(session, state, work, level, m);
            let after = m.core;
            ending = after.ending;
            level_steps::settle(state, level, after);
            continue;
        }
        let first = core.first;
        let forks = core.forks;
        level_steps::perform(state, work, level, first, forks, effect);
        level_steps::settle(state, level, core);
    }
}
