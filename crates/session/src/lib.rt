// Sessions: the records of document 01, what they say, and the questions that Check puts of them. Definitions and computed cases;
// of code there are only types and limits.
#![tactic(auto)]

pub mod limits;

// A field, a register, a parameter or a reply: a number, or `None` for NIL.
pub type Value = Option<u32>;

// A message: the object that it is sent to, its name and its parameter.
#[derive(Clone, Copy)]
pub struct Message {
    pub object: u8,
    pub name: u8,
    pub parameter: Value,
}

// One step of a script. `a` is a register; `b` is a register, a step number, a field or a message
// name; `c` is an object.
#[derive(Clone, Copy)]
pub enum Step {
    // No step: the script's end.
    End,
    Set { a: u8, n: u32 },
    Add { a: u8, b: u8 },
    Jump { a: u8, b: u8 },
    Read { a: u8, b: u8 },
    Write { a: u8, b: u8 },
    Send { a: u8, b: u8, c: u8 },
    Quit { a: u8 },
    Create { a: u8 },
    Withdraw,
}

// The questions that Check uses, as refusals of a session: the first that says no, in the order in which they are put.
#[derive(Clone, Copy, Debug, PartialEq, Eq)]
pub enum Question {
    // Question 1: not 1 to 297 whole records.
    Length,
    // Question 2: the kinds of the records.
    Kinds,
    // Question 3: too many records of a kind, or one misnumbered.
    Numbering,
    // Question 4: the levels are not ordered.
    NotOrdered,
    // Question 5: two levels have no least upper bound.
    NoJoin,
    // Question 17, put straight after question 5: two levels have no greatest lower bound.
    NoMeet,
    // Question 6: an object.
    Object,
    // Question 7: a script step.
    Script,
    // Question 8: the root message.
    Root,
}
