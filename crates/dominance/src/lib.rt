// Which level dominates which: orders of levels, their bounds, and level tables with the questions that are put of them (4 and 5 of
// document 01, 17 of document 02). Definitions and computed cases; of code there is only the type of what they refuse.
#![tactic(auto)]

// The questions about a level table, as refusals of it: the first that says no.
#[derive(Clone, Copy, Debug, PartialEq, Eq)]
pub enum Fault {
    // Question 4: the masks are no order of the levels.
    NotOrdered,
    // Question 5: some pair of levels has no least upper bound.
    NoJoin,
    // Question 17: some pair of levels has no greatest lower bound.
    NoMeet,
}
