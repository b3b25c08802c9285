// What a step of a timetable is made of besides the parts of a scheduler step: one that waits for existence, and the end of the run.
#![tactic(auto)]

ghost use Rattle.std.specs.Prelude.{◌≡◌};
ghost use Rattle.permits.specs.Permits.{ended_of, Countable};
ghost use Rattle.level_state.specs.Representation.{words_of};
ghost use Rattle.level_state.specs.Script.{ScriptStep, Unseen};
ghost use Rattle.timetable_steps.specs.Refusals.{refusal_at, end_of};

use calls::Refusal;
use contents::Session;
use cores::Effect;
use fields::reads::Sight;
use level_state::RunState;
use managers::Manager;
use permits::Permit;

// What questions 12 to 14 say of the step at a place. Where they permit it, the answer is its place.
pub fn refused_at(permit: Permit, place: u32) -> Result<u32, Refusal>
    ensures { result ≡ refusal_at permit place }
{
    match permit {
        Permit::Given => Ok(place),
        Permit::Absent => Err(Refusal::Absent { place }),
        Permit::Idle => Err(Refusal::Idle { place }),
        Permit::Blocked => Err(Refusal::Blocked { place }),
    }
}

// What question 15 says at the end of a timetable.
pub fn at_end(session: &Session, state: &RunState) -> Result<(), Refusal>
    requires { Countable session.now.masks.now state.now.tallies }
    ensures { result ≡ end_of (ended_of session.now.masks.now state.now.tallies) }
{
    if !permits::all_ended(session.masks, &state.tallies) {
        return Err(Refusal::Unended);
    }
    Ok(())
}

// A script step that asks for the existence of an object is made once that is read; a READ may ask for the field then.
pub fn step_seen(
    session: &Session,
    state: &RunState,
    work: &[u32],
    cache: &mut [u32],
    level: usize,
    m: Manager,
    object: u8,
) -> Manager
    requires { Unseen session.now.bytes.now (words_of state.now work.now) level cache.old m object }
    ensures { ScriptStep session.now.bytes.now (words_of state.now work.now) level cache.new m result }
{
    level_reads::answer_existence(session, state, work, cache, level, object);
    let sight = Sight {
        current: &state.current,
        cache,
        all: false,
        unchanged: false,
    };
    let n = m.step(session, &sight);
    let core = n.core;
    let effect = core.effect;
    if let Effect::Read { object: o, field } = effect {
        level_reads::answer_read(session, state, work, cache, level, o, field);
        let sight = Sight {
            current: &state.current,
            cache,
            all: false,
            unchanged: false,
        };
        let r = n.step(session, &sight);
        fields::forget(cache, o as usize, field as usize);
        fields::forget(cache, object as usize, fields::EXISTENCE as usize);
        return r;
    }
    fields::forget(cache, object as usize, fields::EXISTENCE as usize);
    n
}
