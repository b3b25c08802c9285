// What the manager that runs at a level writes: a field, and what a CREATE or WITHDRAW does.
#![tactic(auto)]

ghost use Rattle.std.specs.Prelude.{◌≡◌};
ghost use Rattle.scripts.specs.Existence.{making};
ghost use Rattle.scripts.specs.Effect as effect;
ghost use Rattle.frames.specs.Frames.{frame_of};
ghost use Rattle.changes.specs.Changes.{change_of};
ghost use Rattle.level_state.specs.Steps.{WriteReady, Wrote, withdrawing, ChangeReady, ChangeDone, Changing, ChangedBy};

use changes::Change;
use contents::Session;
use counts::Counts;
use frames::Frame;
use level_state::RunState;
use managers::Manager;
use session::Value;
use std::slice;

// A write takes effect.
pub fn write<C: Counts>(
    current: &mut [u32],
    tallies: &mut [C],
    work: &mut [u32],
    level: usize,
    stamp: u16,
    object: u8,
    field: u8,
    value: Value,
)
    requires { WriteReady current.old (C.numbers tallies.old) work.old level object field }
    ensures { Wrote current.old current.new (C.numbers tallies.old) (C.numbers tallies.new) work.old work.new level stamp object field value }
{
    let count = C::versions(tallies, level);
    fields::set(current, object as usize, field as usize, value);
    versions::append(work, level, count, stamp, object, field, value);
    C::set_versions(tallies, level, count + 1);
}

// The writes of a CREATE: the three fields of the made object, then that it is there, with the methods of a script.
fn write_made(
    state: &mut RunState,
    work: &mut [u32],
    level: usize,
    stamp: u16,
    object: u8,
    first: Value,
    second: Value,
    third: Value,
    script: u8,
)
    requires { ChangeReady state.old.current state.old.tallies work.old level (effect.Write (making object first second third script)) }
    ensures change_done { ChangeDone state.old.current state.new.current state.old.tallies state.new.tallies work.old work.new level stamp (effect.Write (making object first second third script)) }
    ensures rest { (state.new.ended ≡ state.old.ended) × (state.new.queue ≡ state.old.queue) }
{
    let existence = Some(script as u32);
    let current = &mut state.current;
    state.tallies.change(level);
    let tallies = slice::from_mut(&mut state.tallies);
    write(current, tallies, work, level, stamp, object, 0, first);
    write(current, tallies, work, level, stamp, object, 1, second);
    write(current, tallies, work, level, stamp, object, 2, third);
    write(
        current,
        tallies,
        work,
        level,
        stamp,
        object,
        fields::EXISTENCE,
        existence,
    );
}

// The write of a WITHDRAW: the object is no longer there.
fn write_withdrawn(state: &mut RunState, work: &mut [u32], level: usize, stamp: u16, object: u8)
    requires { ChangeReady state.old.current state.old.tallies work.old level (effect.Write (withdrawing object)) }
    ensures change_done { ChangeDone state.old.current state.new.current state.old.tallies state.new.tallies work.old work.new level stamp (effect.Write (withdrawing object)) }
    ensures rest { (state.new.ended ≡ state.old.ended) × (state.new.queue ≡ state.old.queue) }
{
    let existence = Some(0);
    let current = &mut state.current;
    state.tallies.change(level);
    let tallies = slice::from_mut(&mut state.tallies);
    write(
        current,
        tallies,
        work,
        level,
        stamp,
        object,
        fields::EXISTENCE,
        existence,
    );
}

// What a CREATE or WITHDRAW writes. `top` is the frame that it was made in, as it stood before it.
fn write_change(
    state: &mut RunState,
    work: &mut [u32],
    level: usize,
    stamp: u16,
    top: Frame,
    change: Option<Change>,
)
    requires { ChangeReady state.old.current state.old.tallies work.old level (change_of (frame_of top) change) }
    ensures change_done { ChangeDone state.old.current state.new.current state.old.tallies state.new.tallies work.old work.new level stamp (change_of (frame_of top) change) }
    ensures rest { (state.new.ended ≡ state.old.ended) × (state.new.queue ≡ state.old.queue) }
{
    match change {
        Some(Change::Create { object, script }) => {
            let first = top.r1;
            let second = top.r2;
            let third = top.r3;
            write_made(
                state, work, level, stamp, object, first, second, third, script,
            );
        }
        Some(Change::Withdraw { object }) => {
            write_withdrawn(state, work, level, stamp, object);
        }
        None => {}
    }
}

// A CREATE or WITHDRAW of the manager that runs at a level is made, with what it writes.
pub fn change(
    session: &Session,
    state: &mut RunState,
    work: &mut [u32],
    level: usize,
    m: Manager,
) -> Manager
    requires { Changing session.now.bytes.now session.now.masks.now session.now.index.now state.old.current state.old.tallies work.old level m }
    ensures changed_by { ChangedBy session.now.bytes.now state.old.current state.new.current state.old.tallies state.new.tallies work.old work.new level m result }
    ensures rest { (state.new.ended ≡ state.old.ended) × (state.new.queue ≡ state.old.queue) }
{
    let core = m.core;
    let top = core.top;
    let stamp = core.first + core.forks as u16;
    let made = m.change(session, &state.current);
    let change = made.change;
    write_change(state, work, level, stamp, top, change);
    made.manager
}

#[cfg(test)]
mod tests {
    use super::*;
    use fields::FIELD_WORDS;
    use model::WORK_NUMBERS;
    use session::limits::MAX_LEVELS;

    // How many numbers a caller lends of its own: six for each level, and one.
    const NUMBERS: usize = 6 * MAX_LEVELS + 1;

    const LEVEL: usize = 2;

    // Where the count of its versions stands, which is the fourth of them.
    const AT: usize = 3 * MAX_LEVELS + LEVEL;

    // A write counts one version more in a caller's numbers, and changes no other.
    #[test]
    fn counts_in_numbers(rt: HostRuntime) {
        let mut current = [0u32; FIELD_WORDS];
        let mut tallies = [0usize; NUMBERS];
        let mut work = [0u32; WORK_NUMBERS];
        tallies[AT] = 4;
        let stamp = 5;
        let value = Some(7);
        write(
            &mut current,
            &mut tallies,
            &mut work,
            LEVEL,
            stamp,
            3,
            1,
            value,
        );
        let mut counted = [0usize; NUMBERS];
        counted[AT] = 5;
        assert!(rt; tallies == counted);
    }
}
