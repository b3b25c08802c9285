// Frames of a message manager, by value: the one on top, and those that wait below it.
#![tactic(auto)]

pub mod values;

ghost use Rattle.std.specs.Prelude.{ℕ, List, ◌+◌, ◌^◌, ◌≤◌, ◌<◌, ◌≡◌, cond, [], ◌∷◌, leb, get_or};
ghost use Rattle.session.specs.Limits.{registers};
ghost use Rattle.session.specs.Parts.{object_count};
ghost use Rattle.session.specs.Program.{program_of};
ghost use Rattle.session.specs.Questions.{verdict_of, Accepted};
ghost use Rattle.scripts.specs.Frame.{register, with_register, at_step};
ghost use Rattle.scripts.specs.Manager.{next_step};
ghost use Rattle.frames.specs.Frames.{into_of, returns_of, answer_of, way_of, slot_of, script_in, name_in, place_of, frame_of, aside_of, no_waiting, top_for, top_from, aside_from, Becomes, Called, ScriptAt, Placed, Waits};

use contents::{Method, Session};
use session::limits::{NAMES, REGISTERS};
use session::{Step, Value};

// The frame on top: a method that is running.
#[derive(Clone, Copy)]
pub struct Frame {
    pub object: usize,
    // Its method: 16 times its script, 0 where it runs none and else one more than the number of the object
    // whose methods they are, and its name.
    pub slot: usize,
    // The step that is made next, counted from 0.
    pub next: usize,
    // Where its method stands in the session: the record of the first step, and how many steps there are.
    pub start: usize,
    pub count: usize,
    // Which register of the sender's frame, below, gets the reply, and whether it gets the reply itself and
    // not NIL in its place: the register's number, and 4 more if the reply returns.
    pub answer: u8,
    pub r0: Value,
    pub r1: Value,
    pub r2: Value,
    pub r3: Value,
}

// What a first frame answers, to its manager: as to register 0, and the reply itself.
pub const FIRST_ANSWER: u8 = REGISTERS;

// A frame that waits for the reply of the one above it.
#[derive(Clone, Copy)]
pub struct Waiting {
    pub object: u8,
    pub answer: u8,
    // Its next step: 32 times its method, and the step's number.
    pub at: u16,
    pub r0: Value,
    pub r1: Value,
    pub r2: Value,
    pub r3: Value,
}

// What one more method adds to the number of a step. No method has so many.
const STEP_NUMBERS: usize = 32;

// The number of a script's method of a name.
pub fn slot_of(script: u8, name: u8) -> u16
    ensures { result ≡ slot_of script name }
{
    NAMES as u16 * script as u16 + name as u16
}

// The byte that says that a reply goes to register `into`, or is thrown away.
pub fn answer_of(into: u8, returns: bool) -> u8
    requires { into < registers }
    ensures { result ≡ answer_of into returns }
{
    if returns { into + REGISTERS } else { into }
}

// What one more method adds to the number of a call: how many bytes say where a reply goes.
pub const ANSWERS: u16 = 2 * REGISTERS as u16;

// The number of a call, by its method and the byte that says where its reply goes.
pub fn way_of(slot: u16, answer: u8) -> u16
    requires { way_of slot answer < 2 ^ 16 }
    ensures { result ≡ way_of slot answer }
{
    ANSWERS * slot + answer as u16
}

// Where the steps of a method stand. Those of script 0 have none.
fn method_in(session: &Session, slot: usize) -> Method
    requires { script_in slot ≤ object_count session.now.bytes.now }
    ensures { ScriptAt session.now.bytes.now (script_in slot) (name_in slot) result.start result.count }
{
    if slot < NAMES {
        return Method { start: 0, count: 0 };
    }
    session.method_of(slot - NAMES)
}

impl Frame {
    // A frame for a message that found a method, whose reply goes to the sender as `answer` says.
    pub fn new(session: &Session, object: u8, slot: u16, answer: u8, parameter: Value) -> Frame
        requires { Called object slot session.now.bytes.now }
        ensures { (result ≡ top_for object slot answer parameter result.start result.count) × Placed session.now.bytes.now result }
    {
        let slot = slot as usize;
        let method = method_in(session, slot);
        Frame {
            object: object as usize,
            slot,
            next: 0,
            start: method.start,
            count: method.count,
            answer,
            r0: parameter,
            r1: values::nil(),
            r2: values::nil(),
            r3: values::nil(),
        }
    }

    // The step that it makes next, or its script's end.
    pub fn next_step(self, session: &Session) -> Step
        requires { Placed session.now.bytes.now self }
        ensures { result ≡ next_step (program_of session.now.bytes.now) (frame_of self) }
    {
        session.step_in_method(self.start, self.count, self.next)
    }

    // Whether it is at its script's end.
    pub fn is_at_end(self) -> bool
        ensures { result ≡ leb self.count self.next }
    {
        self.next >= self.count
    }

    // What register `k` holds.
    pub fn register(self, k: u8) -> Value
        ensures { result ≡ register (frame_of self) k }
    {
        match k {
            0 => self.r0,
            1 => self.r1,
            2 => self.r2,
            _ => self.r3,
        }
    }

    // The frame with register `k` set.
    pub fn with_register(self, k: u8, v: Value) -> Frame
        ensures { Becomes self result (with_register (frame_of self) k v) }
    {
        match k {
            0 => Frame { r0: v, ..self },
            1 => Frame { r1: v, ..self },
            2 => Frame { r2: v, ..self },
            _ => Frame { r3: v, ..self },
        }
    }

    // The frame past its next step.
    pub fn past(self) -> Frame
        requires { self.next < self.count }
        ensures { Becomes self result (at_step (frame_of self) (self.next + 1)) }
    {
        let next = self.next + 1;
        Frame { next, ..self }
    }

    // The frame with a reply, or NIL in its place, in the register that `answer` says.
    pub fn answered(self, answer: u8, reply: Value) -> Frame
        ensures { Becomes self result (with_register (frame_of self) (into_of answer) (cond (returns_of answer) reply None)) }
    {
        if answer >= REGISTERS {
            self.with_register(answer % REGISTERS, reply)
        } else {
            self.with_register(answer % REGISTERS, None)
        }
    }
}

// What stands where no frame waits.
pub fn no_frame() -> Waiting
    ensures { result ≡ no_waiting }
{
    Waiting {
        object: 0,
        answer: 0,
        at: 0,
        r0: None,
        r1: None,
        r2: None,
        r3: None,
    }
}

// The frame on top, as one that waits. In an accepted session an object fits 8 bits, and the number of a step 16.
pub fn set_aside(f: Frame) -> Waiting
    requires { (f.object < 2 ^ 8) × (place_of f.slot f.next < 2 ^ 16) }
    ensures is { result ≡ aside_from f }
    ensures waits { (session : List ℕ) → verdict_of session ≡ Accepted → Placed session f → Waits session (aside_of result) }
{
    let r0 = f.r0;
    let r1 = f.r1;
    let r2 = f.r2;
    let r3 = f.r3;
    Waiting {
        object: f.object as u8,
        answer: f.answer,
        at: (STEP_NUMBERS * f.slot + f.next) as u16,
        r0,
        r1,
        r2,
        r3,
    }
}

// A frame that waited, as the one on top.
pub fn woken(session: &Session, w: Waiting) -> Frame
    requires { Waits session.now.bytes.now (aside_of w) }
    ensures { (result ≡ top_from w result.start result.count) × Placed session.now.bytes.now result }
{
    let at = w.at as usize;
    let slot = at / STEP_NUMBERS;
    let method = method_in(session, slot);
    let r0 = w.r0;
    let r1 = w.r1;
    let r2 = w.r2;
    let r3 = w.r3;
    Frame {
        object: w.object as usize,
        slot,
        next: at % STEP_NUMBERS,
        start: method.start,
        count: method.count,
        answer: w.answer,
        r0,
        r1,
        r2,
        r3,
    }
}
