// The records of a session, read from its bytes: one record, and how many there are of each kind.
#![tactic(auto)]

pub mod kinds;
pub mod masks;
pub mod places;
pub mod record;

// How many levels, objects and script steps a session has. Its records stand in that order, the
// root message last.
#[derive(Clone, Copy)]
pub struct Layout {
    pub levels: usize,
    pub objects: usize,
    pub steps: usize,
}
