// A run by a timetable: one scheduler step for each of its bytes.
#![tactic(auto)]

ghost use Rattle.model.specs.Schedule.{initial_state};
ghost use Rattle.level_state.specs.Representation.{words_of};
ghost use Rattle.level_state.specs.Ends.{Quiescent, Ends, SameRest};

use calls::Refusal;
use contents::Session;
use cores::Effect;
use fields::FIELD_WORDS;
use fields::reads::Sight;
use level_state::RunState;
use managers::Manager;
use permits::Permit;
use session::limits::MAX_LEVELS;

// Makes the scheduler steps of a timetable, from the session as read in. The first that is not permitted
// ends the run; so does a timetable at whose end a manager has not ended. A script step that asks for a field
// is made once that is read. Between the steps of a manager others step: nothing that it has read is kept in
// `cache`.
pub fn run(
    session: &Session,
    timetable: &[u8],
    state: &mut RunState,
    work: &mut [u32],
) -> Result<(), Refusal>
    requires { Quiescent session.now.bytes.now (words_of state.old work.old) (initial_state session.now.bytes.now) }
    ensures { Ends session.now.bytes.now timetable.now (words_of state.new work.new) result × SameRest work.old work.new }
{
    let mut managers = [Manager::none(); MAX_LEVELS];
    let mut cache = [0u32; FIELD_WORDS];
    for i in 0..timetable.len() {
        let level = timetable[i] as usize;
        let permit = permits::ask(session.masks, &state.tallies, &state.queue, level);
        let Permit::Given = permit else {
            return timetable_steps::refused_at(permit, i as u32).map(|_| ());
        };
        if !state.tallies.is_busy(level) {
            managers[level] = level_steps::start(session, state, work, level);
            continue;
        }
        let unchanged = state.tallies.is_unchanged();
        let m = managers[level];
        let sight = Sight {
            current: &state.current,
            cache: &cache,
            all: false,
            unchanged,
        };
        let n = m.step(session, &sight);
        let core = n.core;
        let effect = core.effect;
        if let Effect::Read { object, field } = effect {
            if field == fields::EXISTENCE {
                let r = timetable_steps::step_seen(
                    session, state, work, &mut cache, level, n, object,
                );
                let after = r.core;
                managers[level] = r;
                level_steps::done(state, work, level, after);
                continue;
            }
            level_reads::answer_read(session, state, work, &mut cache, level, object, field);
            let sight = Sight {
                current: &state.current,
                cache: &cache,
                all: false,
                unchanged,
            };
            let r = n.step(session, &sight);
            fields::forget(&mut cache, object as usize, field as usize);
            let after = r.core;
            managers[level] = r;
            level_steps::done(state, work, level, after);
            continue;
        }
        if let Effect::Change = effect {
            let r = level_writes::change(session, state, work, level, n);
            let after = r.core;
            managers[level] = r;
            level_steps::settle(state, level, after);
            continue;
        }
        managers[level] = n;
        level_steps::done(state, work, level, core);
    }
    timetable_steps::at_end(session, state)
}
