// What a message manager is and what a script step does to it: definitions, laws and computed cases. Of code there are only limits and
// types: how a manager stands, and what is kept of one that has ended.
#![tactic(auto)]

use session::Value;

// The numbers that documents 01 and 02 fix for managers, under the names that the definitions give them: how many
// frames a manager may have, and how many script steps, writes that take effect and forks it may make.
pub const MAX_FRAMES: u8 = 8;

pub const MAX_SCRIPT_STEPS: u16 = 256;

pub const MAX_WRITES: u8 = 16;

pub const MAX_FORKS: u8 = 15;

// How a manager stands.
#[derive(Clone, Copy)]
pub enum Ending {
    Running,
    // Ending 0: the stack is empty.
    Finished,
    // Ending 1: the 256th script step left frames.
    OutOfSteps,
    // Ending 2: a step would have passed sixteen writes.
    OutOfWrites,
}

// What is kept of a manager that has ended.
#[derive(Clone, Copy)]
pub struct Ended {
    pub ending: Ending,
    pub writes: u8,
    // Its fork stamp.
    pub stamp: u32,
    // Its write stamps, at its start and at its end.
    pub first: u16,
    pub last: u16,
    pub steps: u16,
    pub reply: Value,
}
