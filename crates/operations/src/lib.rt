// Operations: the next script step of a core that runs.
#![tactic(auto)]

ghost use Rattle.std.specs.Prelude.{◌<◌, ◌≡◌};
ghost use Rattle.session.specs.Limits.{fields as fieldCount, registers};
ghost use Rattle.session.specs.Program.{program_of};
ghost use Rattle.scripts.specs.Frame.{register};
ghost use Rattle.scripts.specs.Manager.{with_top, popped, next_step};
ghost use Rattle.scripts.specs.Effect as effect;
ghost use Rattle.frames.specs.Frames.{frame_of, Method};
ghost use Rattle.operations.specs.Operations.{is_call, Operable, OperationMade, Operated};
ghost use Rattle.cores.specs.Moves.{Able, Makes, passed, ending_as};

use contents::Session;
use cores::{Core, Effect};
use fates::Fate;
use fields::reads::Sight;
use frames::values;
use session::{Step, Value};

// Whether the reply to a message returns to its sender.
fn returns(fate: Fate) -> bool
    ensures { result ≡ is_call fate }
{
    matches!(fate, Fate::Call)
}

// READ field `b` into register `a`: of an object of the level, or of any that is taken as such, what it holds; of
// others what was read before. What is not at hand is asked for. Of an object that is not there it is NIL.
fn read(core: Core, session: &Session, sight: &Sight, a: u8, b: u8) -> Core
    requires { Able core × Operable session.now.bytes.now session.now.masks.now sight.now.current.now sight.now.cache.now core × (b < fieldCount) }
    ensures { OperationMade session.now.bytes.now sight.now.current.now sight.now.cache.now sight.now.all sight.now.unchanged (Step.Read a b) core result }
{
    let f = core.top;
    let object = f.object;
    let own = sight.is_own(session, core.level as usize, object);
    let found = sight.find(own, object, b);
    match found {
        Ok(v) => core.put(a, v),
        Err(missing) => core.causing(Effect::Read {
            object: object as u8,
            field: missing.value,
        }),
    }
}

// WRITE register `a` to field `b`: of an object of the level that is there, else nothing.
fn write(core: Core, session: &Session, sight: &Sight, a: u8, b: u8) -> Core
    requires { Able core × Operable session.now.bytes.now session.now.masks.now sight.now.current.now sight.now.cache.now core × (b < fieldCount) }
    ensures { OperationMade session.now.bytes.now sight.now.current.now sight.now.cache.now sight.now.all sight.now.unchanged (Step.Write a b) core result }
{
    let f = core.top;
    let object = f.object;
    if session.level_of(object) != core.level as usize {
        return core.pass();
    }
    if sight.script_here(object) == 0 {
        return core.pass();
    }
    core.write_own(a, b)
}

// SEND name `b` to object `c`, with register `a` as parameter and for the reply.
fn send(core: Core, session: &Session, sight: &Sight, a: u8, b: u8, c: u8) -> Core
    requires { Able core × Operable session.now.bytes.now session.now.masks.now sight.now.current.now sight.now.cache.now core × (a < registers) × Method c b session.now.bytes.now }
    ensures { OperationMade session.now.bytes.now sight.now.current.now sight.now.cache.now sight.now.all sight.now.unchanged (Step.Send a b c) core result }
{
    let f = core.top;
    let sender = session.level_of(f.object);
    let receiver = session.level_of(c as usize);
    let fate = filter::fate_of(session.masks, core.level as usize, sender, receiver);
    if let Fate::Fork(u) = fate {
        return core.fork(a, b, c, u as u8);
    }
    if let Fate::Block = fate {
        return core.put(a, None);
    }
    let own = sight.is_own(session, core.level as usize, c as usize);
    let found = sight.script_of(own, c as usize);
    match found {
        Ok(script) => core.call(a, b, c, script, returns(fate)),
        Err(missing) => core.causing(Effect::Read {
            object: c,
            field: missing.value,
        }),
    }
}

// QUIT with register `a`.
fn quit(core: Core, a: u8) -> Core
    requires { Able core × (0 < core.height) }
    ensures { Makes (λ s. Unit) core result (λ m. record { manager = popped (with_top m (passed m)) (register (passed m) a); effect = effect.Nothing }) }
{
    let f = core.top;
    let reply = f.register(a);
    let m = core.pass();
    if core.height == 1 {
        return m.finished(reply);
    }
    m.causing(Effect::Pop(reply))
}

// The top is at its script's end: it is to pop, replying NIL.
fn end(core: Core) -> Core
    ensures { result ≡ ending_as core }
{
    if core.height == 1 {
        return core.finished(None);
    }
    core.causing(Effect::Pop(None))
}

// The next operation of the top.
pub fn operate(core: Core, session: &Session, sight: &Sight, step: Step) -> Core
    requires { Operable session.now.bytes.now session.now.masks.now sight.now.current.now sight.now.cache.now core × (step ≡ next_step (program_of session.now.bytes.now) (frame_of core.top)) }
    ensures { Operated session.now.bytes.now sight.now.current.now sight.now.cache.now sight.now.all sight.now.unchanged core result }
{
    let f = core.top;
    match step {
        Step::End => end(core),
        Step::Set { a, n } => core.put(a, Some(n)),
        Step::Add { a, b } => core.put(a, values::sum(f.register(a), f.register(b))),
        Step::Jump { a, b } => core.jump(a, b),
        Step::Read { a, b } => read(core, session, sight, a, b),
        Step::Write { a, b } => write(core, session, sight, a, b),
        Step::Send { a, b, c } => send(core, session, sight, a, b, c),
        Step::Quit { a } => quit(core, a),
        Step::Create { a: _ } => core.causing(Effect::Change),
        Step::Withdraw => core.causing(Effect::Change),
    }
}
