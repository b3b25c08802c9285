// What the manager that runs at a level reads, of its own level and of those below, and the answers to what it asks for:
// they are kept in `cache`.
#![tactic(auto)]

ghost use Rattle.std.specs.Prelude.{ℕ, ◌≤◌, ◌<◌, ◌≡◌};
ghost use Rattle.session.specs.Limits.{fields};
ghost use Rattle.session.specs.Parts.{object_count};
ghost use Rattle.scripts.specs.Existence.{existence};
ghost use Rattle.scripts.specs.Valid.{Leveled};
ghost use Rattle.level_state.specs.Representation.{words_of};
ghost use Rattle.level_state.specs.Steps.{BoundReady, bound_in, ReadIs, ScriptIs, Readable, Named, ReadReady, Answered};

use contents::Session;
use counts::Counts;
use fields::values;
use level_state::RunState;
use session::Value;
use std::slice;

// The write stamp up to which the manager that runs at a level reads at level `j`, below: the one that it
// carries from an ancestor there, or the end stamp of the largest smaller fork stamp there, or 0.
fn bound_of<C: Counts>(ended: &[u32], tallies: &[C], queue: &[u32], level: usize, j: usize) -> u16
    requires { BoundReady ended.now (C.numbers tallies.now) queue.now level j }
    ensures { (n : ℕ) → j < n → bound_in n ended.now (C.numbers tallies.now) queue.now level j ≡ result }
{
    let i = C::ended(tallies, level);
    let carried = queues::carried_at(queue, level, i, j);
    if carried != 0 {
        return carried;
    }
    let stamp = queues::stamp_at(queue, level, i);
    histories::end_before(ended, j, C::ended(tallies, j), stamp) as u16
}

// What the manager that runs at a level reads of a field: at its level the newest version, which is the
// current field; below the newest one up to its bound there.
pub fn field_of<C: Counts>(
    session: &[u8],
    masks: &[u16],
    current: &[u32],
    ended: &[u32],
    tallies: &[C],
    queue: &[u32],
    work: &[u32],
    level: usize,
    object: u8,
    field: u8,
) -> Value
    requires leveled { Leveled session.now masks.now }
    requires readable { Readable session.now (record { current = current.now; ended = ended.now; tallies = C.numbers tallies.now; queue = queue.now; work = work.now }) level }
    requires named { Named session.now object field × (field < fields) }
    ensures { ReadIs session.now (record { current = current.entry.now; ended = ended.now; tallies = C.numbers tallies.now; queue = queue.now; work = work.now }) level object field result }
{
    let j = contents::level_of(session, masks, object as usize);
    if j == level {
        return fields::get(current, object as usize, field as usize);
    }
    let initial = fields::first_field(session, masks, object as usize, field as usize);
    let bound = bound_of(ended, tallies, queue, level, j);
    versions::newest_to(
        work,
        j,
        C::versions(tallies, j),
        bound,
        object,
        field,
        initial,
    )
}

// What the manager that runs, or is about to start, at a level reads of the existence of an object. Where none was
// written at the object's level it is still the first one.
pub fn existence_of<C: Counts>(
    session: &[u8],
    masks: &[u16],
    current: &[u32],
    ended: &[u32],
    tallies: &[C],
    queue: &[u32],
    work: &[u32],
    level: usize,
    object: u8,
) -> Value
    requires leveled { Leveled session.now masks.now }
    requires readable { Readable session.now (record { current = current.now; ended = ended.now; tallies = C.numbers tallies.now; queue = queue.now; work = work.now }) level }
    requires named { Named session.now object existence }
    ensures { ReadIs session.now (record { current = current.entry.now; ended = ended.now; tallies = C.numbers tallies.now; queue = queue.now; work = work.now }) level object existence result }
{
    let j = contents::level_of(session, masks, object as usize);
    if j == level || C::is_level_unchanged(tallies, j) {
        return fields::get(current, object as usize, fields::EXISTENCE as usize);
    }
    let initial = fields::first_existence(object as usize);
    let bound = bound_of(ended, tallies, queue, level, j);
    versions::newest_to(
        work,
        j,
        C::versions(tallies, j),
        bound,
        object,
        fields::EXISTENCE,
        initial,
    )
}

// Whose methods the manager that is about to start at a level runs: those of its message's object, by number. As
// long as no existence was written it is the object's own.
pub fn script_of<C: Counts>(
    session: &[u8],
    masks: &[u16],
    current: &[u32],
    ended: &[u32],
    tallies: &[C],
    queue: &[u32],
    work: &[u32],
    level: usize,
    object: u8,
) -> u8
    requires leveled { Leveled session.now masks.now }
    requires readable { Readable session.now (record { current = current.now; ended = ended.now; tallies = C.numbers tallies.now; queue = queue.now; work = work.now }) level }
    requires named { Named session.now object existence }
    ensures { ScriptIs session.now (record { current = current.entry.now; ended = ended.now; tallies = C.numbers tallies.now; queue = queue.now; work = work.now }) level object result × (result ≤ object_count session.now) }
{
    if C::is_unchanged(tallies) {
        return fields::reads::own_script(object as usize);
    }
    let existence = existence_of(
        session, masks, current, ended, tallies, queue, work, level, object,
    );
    values::number_in(existence) as u8
}

// The READ that the manager that runs at a level asks for is answered: what it reads is kept in `cache`.
pub fn answer_read(
    session: &Session,
    state: &RunState,
    work: &[u32],
    cache: &mut [u32],
    level: usize,
    object: u8,
    field: u8,
)
    requires readable { Readable session.now.bytes.now (words_of state.now work.now) level }
    requires read_ready { ReadReady session.now.bytes.now cache.old object field × (field < fields) }
    ensures { Answered session.now.bytes.now (words_of state.now work.now) cache.old cache.new level object field }
{
    let value = field_of(
        session.bytes,
        session.masks,
        &state.current,
        &state.ended,
        slice::from_ref(&state.tallies),
        &state.queue,
        work,
        level,
        object,
        field,
    );
    fields::remember(cache, object as usize, field as usize, value);
}

// The existence that the manager that runs at a level asks for is kept in `cache`.
pub fn answer_existence(
    session: &Session,
    state: &RunState,
    work: &[u32],
    cache: &mut [u32],
    level: usize,
    object: u8,
)
    requires readable { Readable session.now.bytes.now (words_of state.now work.now) level }
    requires read_ready { ReadReady session.now.bytes.now cache.old object existence }
    ensures { Answered session.now.bytes.now (words_of state.now work.now) cache.old cache.new level object existence }
{
    let value = existence_of(
        session.bytes,
        session.masks,
        &state.current,
        &state.ended,
        slice::from_ref(&state.tallies),
        &state.queue,
        work,
        level,
        object,
    );
    fields::remember(cache, object as usize, fields::EXISTENCE as usize, value);
}
