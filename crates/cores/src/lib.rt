// The core of a message manager, by value: all of it but for the frames that wait below its top. What a script step
// makes of one, and frames made and popped.
#![tactic(auto)]

mod ends;
mod moves;

ghost use Rattle.std.specs.Prelude.{◌+◌, ◌<◌, ◌≡◌, ◌&&◌, ltb};
ghost use Rattle.scripts.specs.Ending.{is_running};
ghost use Rattle.scripts.specs.Limits.{write_stamps};
ghost use Rattle.cores.specs.Core.{is_nothing, kept_of};
ghost use Rattle.cores.specs.Moves.{causing};

use frames::Frame;
use scripts::{Ended, Ending};
use session::Value;

// A manager but for the frames that wait below its top.
#[derive(Clone, Copy)]
pub struct Core {
    pub level: u8,
    // The write stamp at its start. Each fork made adds 1 to it.
    pub first: u16,
    pub steps: u16,
    pub writes: u8,
    pub forks: u8,
    // How many frames there are.
    pub height: u8,
    pub ending: Ending,
    // What its first frame replied.
    pub reply: Value,
    // The frame on top.
    pub top: Frame,
    // What its last script step did outside it, or its next one asks.
    pub effect: Effect,
}

// What a script step does outside its manager, asks before it is made, or leaves to do to the frames.
#[derive(Clone, Copy)]
pub enum Effect {
    Nothing,
    // The manager has ended.
    End,
    // A field of an object of the manager's level gets a value.
    Write {
        object: u8,
        field: u8,
        value: Value,
    },
    // The step needs a field or the existence of an object that is not at hand, and is not made.
    Read {
        object: u8,
        field: u8,
    },
    // A manager is forked at a level, to run a message.
    Fork {
        level: u8,
        object: u8,
        name: u8,
        parameter: Value,
    },
    // The step is a CREATE or a WITHDRAW, and is not made.
    Change,
    // A frame is to be made above the top. Nobody outside sees this.
    Call {
        object: u8,
        way: u16,
        parameter: Value,
    },
    // The top is to pop with a reply. Nobody outside sees this.
    Pop(Value),
}

// Whether a step did nothing outside its manager, asks nothing, and leaves nothing to do.
fn is_nothing(effect: Effect) -> bool
    ensures { result ≡ is_nothing effect }
{
    matches!(effect, Effect::Nothing)
}

// Whether a manager has not ended.
pub fn is_running(ending: Ending) -> bool
    ensures { result ≡ is_running ending }
{
    matches!(ending, Ending::Running)
}

impl Core {
    // The core with another effect.
    pub fn causing(self, effect: Effect) -> Core
        ensures { result ≡ causing self effect }
    {
        Core { effect, ..self }
    }

    // Whether it makes its next script step by itself.
    pub fn may_advance(self, limit: u16) -> bool
        ensures { result ≡ (is_nothing self.effect && ltb self.steps limit) }
    {
        is_nothing(self.effect) && self.steps < limit
    }

    // What is kept of it once it has ended, with the stamp of its fork.
    pub fn ended(self, stamp: u32) -> Ended
        requires { self.first + self.forks < write_stamps }
        ensures { result ≡ kept_of self stamp }
    {
        Ended {
            ending: self.ending,
            writes: self.writes,
            stamp,
            first: self.first,
            last: self.first + self.forks as u16,
            steps: self.steps,
            reply: self.reply,
        }
    }
}
