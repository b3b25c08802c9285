// What becomes of a message, by the message filter of RADC-TR-90-91 as document 01 fixes it. Definitions and computed cases; of code
// there is only the type of what becomes of one.
#![tactic(auto)]

// What becomes of a message.
#[derive(Clone, Copy)]
pub enum Fate {
    // The receiver's method runs as a frame, and its reply returns.
    Call,
    // The receiver's method runs as a frame, and its reply is thrown away: the sender gets NIL.
    Discard,
    // Nothing runs; the reply is NIL.
    Block,
    // A manager is forked at this level; the reply is NIL.
    Fork(usize),
}
