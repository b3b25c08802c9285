// Message managers: a stack of frames that runs the methods of one message, by value.
#![tactic(auto)]

ghost use Rattle.std.specs.Prelude.{◌≤◌, ◌<◌, ◌≡◌};
ghost use Rattle.session.specs.Parts.{object_count};
ghost use Rattle.scripts.specs.Limits.{max_script_steps};
ghost use Rattle.scripts.specs.Valid.{Startable};
ghost use Rattle.managers.specs.Steps.{no_manager, Starts, WellFormed, Advanceable, Advanced, Stepped, Changeable, ChangedFrom, Lowering, Settled};

use changes::Change;
use contents::Session;
use cores::{Core, Effect};
use fields::reads::Sight;
use frames::{FIRST_ANSWER, Frame, Waiting};
use scripts::{Ending, MAX_FRAMES};
use session::{Message, Value};

// How many frames of a manager wait below its top, at most.
pub const MAX_WAITING: usize = MAX_FRAMES as usize - 1;

// Where the frame on top stands among those that wait, once it waits, and the one below it: so far before
// how many frames there are.
const TOP: usize = 1;

const BELOW_TOP: usize = 2;

// A message manager.
#[derive(Clone, Copy)]
pub struct Manager {
    pub core: Core,
    // The frames that wait below the top, the first first.
    pub waiting: [Waiting; MAX_WAITING],
}

// A manager after a CREATE or WITHDRAW, and what that does outside it, if anything.
#[derive(Clone, Copy)]
pub struct Changed {
    pub manager: Manager,
    pub change: Option<Change>,
}

// The core above the frames that wait, once no frame above the first is at its script's end. Compiled into its
// callers: a core that is handed on by its address would be stored whole after each script step.
#[inline(always)]
fn settled(core: Core, session: &Session, waiting: &[Waiting; MAX_WAITING]) -> Core
    requires { Lowering session.now.bytes.now session.now.index.now waiting.now core core }
    ensures { Settled session.now.bytes.now session.now.index.now waiting.now core result }
{
    let mut core = core;
    while core.pops() {
        let at = core.height as usize - BELOW_TOP;
        let effect = core.effect;
        let lower = core.popped(session, waiting[at], None);
        core = lower.causing(effect);
    }
    core.closed()
}

impl Manager {
    // What stands for a manager where none has started: one that does not run.
    pub fn none() -> Manager
        ensures { result ≡ no_manager }
    {
        let top = Frame {
            object: 0,
            slot: 0,
            next: 0,
            start: 0,
            count: 0,
            answer: 0,
            r0: None,
            r1: None,
            r2: None,
            r3: None,
        };
        let core = Core {
            level: 0,
            first: 0,
            steps: 0,
            writes: 0,
            forks: 0,
            height: 0,
            ending: Ending::Finished,
            reply: None,
            top,
            effect: Effect::Nothing,
        };
        let waiting = [frames::no_frame(); MAX_WAITING];
        Manager { core, waiting }
    }

    // The manager of a message, started at a level with a write stamp: its first frame is made, with the
    // script that is read of its object, and an empty method ends at once.
    pub fn start(session: &Session, level: u8, stamp: u16, message: Message, script: u8) -> Manager
        requires { Startable session.now.bytes.now level stamp message × (script ≤ object_count session.now.bytes.now) }
        ensures { Starts session.now.bytes.now level stamp message script result × WellFormed session.now.bytes.now result }
    {
        let parameter = message.parameter;
        let top = Frame::new(
            session,
            message.object,
            frames::slot_of(script, message.name),
            FIRST_ANSWER,
            parameter,
        );
        let made = Core {
            level,
            first: stamp,
            steps: 0,
            writes: 0,
            forks: 0,
            height: 1,
            ending: Ending::Running,
            reply: None,
            top,
            effect: Effect::Nothing,
        };
        let core = made.closed();
        let waiting = [frames::no_frame(); MAX_WAITING];
        Manager { core, waiting }
    }

    // Script steps of a manager that runs, until one concerns others or asks, the manager ends, or `limit`
    // are made in all. READs see what `sight` has.
    pub fn advance(self, session: &Session, sight: &Sight, limit: u16) -> Manager
        requires advanceable { Advanceable session.now.bytes.now session.now.masks.now session.now.index.now sight.now.current.now sight.now.cache.now self }
        requires steps_lt_limit { (self.core.steps < limit) × (limit ≤ max_script_steps) }
        ensures { Advanced session.now.bytes.now sight.now.current.now sight.now.cache.now sight.now.all sight.now.unchanged limit self result }
    {
        let mut core = self.core.causing(Effect::Nothing);
        let mut waiting = self.waiting;
        while core.may_advance(limit) {
            let f = core.top;
            let step = f.next_step(session);
            // Nothing is left to do: said once more, so that nothing of an effect is carried along.
            let quiet = core.causing(Effect::Nothing);
            core = operations::operate(quiet, session, sight, step);
            let effect = core.effect;
            match effect {
                Effect::Call {
                    object,
                    way,
                    parameter,
                } => {
                    let f = core.top;
                    let at = core.height as usize - TOP;
                    waiting[at] = frames::set_aside(f);
                    core = core.pushed(session, object, way, parameter);
                }
                Effect::Pop(reply) => {
                    let at = core.height as usize - BELOW_TOP;
                    core = core.popped(session, waiting[at], reply);
                }
                _ => {}
            }
        }
        core = settled(core, session, &waiting);
        Manager { core, waiting }
    }

    // A CREATE or WITHDRAW of a manager that runs, pops and ending included.
    pub fn change(self, session: &Session, current: &[u32]) -> Changed
        requires { Changeable session.now.bytes.now session.now.masks.now session.now.index.now current.now self }
        ensures { ChangedFrom session.now.bytes.now current.now self result }
    {
        let quiet = self.core.causing(Effect::Nothing);
        let waiting = self.waiting;
        let f = quiet.top;
        let changed = changes::make(quiet, session, current, f.next_step(session));
        let change = changed.change;
        let core = settled(changed.core, session, &waiting);
        let manager = Manager { core, waiting };
        Changed { manager, change }
    }

    // One script step of a manager that runs, pops and ending included. One that needs what the words at hand do not
    // say asks for it, and a CREATE or WITHDRAW waits for `change`: neither is made.
    pub fn step(self, session: &Session, sight: &Sight) -> Manager
        requires { Advanceable session.now.bytes.now session.now.masks.now session.now.index.now sight.now.current.now sight.now.cache.now self }
        ensures { Stepped session.now.bytes.now sight.now.current.now sight.now.cache.now sight.now.all sight.now.unchanged self result }
    {
        let limit = self.core.steps + 1;
        self.advance(session, sight, limit)
    }
}
