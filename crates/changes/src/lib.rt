// CREATE and WITHDRAW (document 02, job 7): apart from the other operations, since few steps are one, and the others
// are made in a row.
#![tactic(auto)]

ghost use Rattle.std.specs.Prelude.{◌≡◌};
ghost use Rattle.session.specs.Program.{program_of};
ghost use Rattle.scripts.specs.Manager.{next_step};
ghost use Rattle.frames.specs.Frames.{frame_of};
ghost use Rattle.cores.specs.Moves.{Able};
ghost use Rattle.changes.specs.Changes.{Changeable, IsChange, Spends, ChangeMade, StepChanged};

use contents::Session;
use cores::{Core, Effect};
use scripts::{Ending, MAX_WRITES};
use session::limits::{FIRST_MADE, MADE_OBJECTS};
use session::{Step, Value};

// What a CREATE or WITHDRAW does outside its manager.
#[derive(Clone, Copy)]
pub enum Change {
    // An object of the manager's level is made, with a script. Its fields are registers 1, 2 and 3 of the top before
    // the step.
    Create { object: u8, script: u8 },
    // An object of the manager's level is withdrawn.
    Withdraw { object: u8 },
}

// A core after a CREATE or WITHDRAW, and what that does outside it, if anything.
#[derive(Clone, Copy)]
pub struct Changed {
    pub core: Core,
    pub change: Option<Change>,
}

// How many versions make an object: "counts as four writes".
const MAKING: u8 = 4;

// A step that does nothing outside.
fn unchanged(core: Core) -> Changed
    ensures { (result.core ≡ core) × (result.change ≡ None) }
{
    Changed { core, change: None }
}

// A step that would write too much: it ends the manager.
fn spent(core: Core) -> Core
    requires { Able core }
    ensures { Spends core result × (result.forks ≡ core.forks) × (result.effect ≡ Effect.End) }
{
    let m = core.pass();
    Core {
        ending: Ending::OutOfWrites,
        effect: Effect::End,
        ..m
    }
}

// CREATE: an object of the level, whose number register `a` gets.
fn create(core: Core, session: &Session, current: &[u32], a: u8) -> Changed
    requires { Able core × Changeable session.now.bytes.now session.now.masks.now current.now core }
    ensures { ChangeMade session.now.bytes.now current.now (Step.Create a) core result }
{
    let f = core.top;
    let level = core.level as usize;
    if session.level_of(f.object) != level {
        return unchanged(core.put(a, None));
    }
    let script = fields::script_in(current, f.object);
    if script == 0 {
        return unchanged(core.put(a, None));
    }
    let used = fields::used_of(current, level);
    if used >= MADE_OBJECTS {
        return unchanged(core.put(a, None));
    }
    if core.writes > MAX_WRITES - MAKING {
        return unchanged(spent(core));
    }
    let number = FIRST_MADE + MADE_OBJECTS * level + used;
    let m = core.put(a, Some(number as u32));
    let writes = m.writes + MAKING;
    Changed {
        core: Core { writes, ..m },
        change: Some(Change::Create {
            object: number as u8,
            script: script as u8,
        }),
    }
}

// WITHDRAW: the top's object, if it is of the level and there.
fn withdraw(core: Core, session: &Session, current: &[u32]) -> Changed
    requires { Able core × Changeable session.now.bytes.now session.now.masks.now current.now core }
    ensures { ChangeMade session.now.bytes.now current.now Step.Withdraw core result }
{
    let f = core.top;
    if session.level_of(f.object) != core.level as usize {
        return unchanged(core.pass());
    }
    if !fields::is_there(current, f.object) {
        return unchanged(core.pass());
    }
    if core.writes >= MAX_WRITES {
        return unchanged(spent(core));
    }
    let m = core.pass();
    let writes = m.writes + 1;
    Changed {
        core: Core { writes, ..m },
        change: Some(Change::Withdraw {
            object: f.object as u8,
        }),
    }
}

// The next step, a CREATE or WITHDRAW, but for the pops.
pub fn make(core: Core, session: &Session, current: &[u32], step: Step) -> Changed
    requires { Changeable session.now.bytes.now session.now.masks.now current.now core × (step ≡ next_step (program_of session.now.bytes.now) (frame_of core.top)) × IsChange step }
    ensures { StepChanged session.now.bytes.now current.now core result }
{
    if let Step::Create { a } = step {
        return create(core, session, current, a);
    }
    withdraw(core, session, current)
}
