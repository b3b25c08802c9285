// Frames made and popped, and how a manager stands after that.
ghost use Rattle.std.specs.Prelude.{◌<◌, ◌≡◌, ◌&&◌, ltb, leb};
ghost use Rattle.scripts.specs.Limits.{max_frames};
ghost use Rattle.scripts.specs.Ending.{is_running};
ghost use Rattle.frames.specs.Frames.{slot_on, aside_of, Called, Waits};
ghost use Rattle.cores.specs.Moves.{Pushed, Popped, finished_as, closed_as};

use crate::{Core, Effect};
use contents::Session;
use frames::{ANSWERS, Frame, Waiting};
use scripts::{Ending, MAX_SCRIPT_STEPS};
use session::Value;

impl Core {
    // A frame is made above the top, which waits.
    pub fn pushed(self, session: &Session, object: u8, way: u16, parameter: Value) -> Core
        requires { Called object (slot_on way) session.now.bytes.now × (self.height < max_frames) }
        ensures { Pushed session.now.bytes.now self object way parameter result }
    {
        let answer = (way % ANSWERS) as u8;
        let top = Frame::new(session, object, way / ANSWERS, answer, parameter);
        let height = self.height + 1;
        Core {
            height,
            top,
            effect: Effect::Nothing,
            ..self
        }
    }

    // The top pops with a reply, to the frame that waits below it.
    pub fn popped(self, session: &Session, below: Waiting, reply: Value) -> Core
        requires { Waits session.now.bytes.now (aside_of below) × (0 < self.height) }
        ensures { Popped session.now.bytes.now self below reply result }
    {
        let f = self.top;
        let sender = frames::woken(session, below);
        let top = sender.answered(f.answer, reply);
        let height = self.height - 1;
        Core {
            height,
            top,
            effect: Effect::Nothing,
            ..self
        }
    }

    // The first frame pops with a reply: the manager ends.
    pub fn finished(self, reply: Value) -> Core
        ensures { result ≡ finished_as self reply }
    {
        Core {
            height: 0,
            ending: Ending::Finished,
            effect: Effect::End,
            reply,
            ..self
        }
    }

    // Whether the top, of a manager that runs, is at its script's end above a frame that waits.
    pub fn pops(self) -> bool
        ensures { result ≡ (is_running self.ending && (leb self.top.count self.top.next && ltb 1 self.height)) }
    {
        crate::is_running(self.ending) && self.top.is_at_end() && self.height > 1
    }

    // How it stands once no frame above the first is at its script's end.
    pub fn closed(self) -> Core
        ensures { result ≡ closed_as self }
    {
        if !crate::is_running(self.ending) {
            return self;
        }
        if self.top.is_at_end() {
            return Core {
                height: 0,
                ending: Ending::Finished,
                reply: None,
                ..self
            };
        }
        if self.steps < MAX_SCRIPT_STEPS {
            return self;
        }
        Core {
            ending: Ending::OutOfSteps,
            ..self
        }
    }
}
