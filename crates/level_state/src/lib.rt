// What a run with scheduler steps keeps, and of each level: what its words stand for, what the parts of a scheduler step do to
// them, and how the steps of a run end. Definitions and laws; of code there is only the type of what is kept.
//
// Beside a run's state a slice is lent, `work`: it holds the versions, as in `versions`. `cache` holds what a manager has read,
// as in `fields`.
#![tactic(auto)]

use fields::FIELD_WORDS;
use histories::limits::HISTORY_WORDS;
use queues::QUEUE_WORDS;
use tallies::Tallies;

// What a run with scheduler steps keeps beside the versions.
#[derive(Drop)]
pub struct RunState {
    // The newest fields and existence of objects, as in `fields`.
    pub current: [u32; FIELD_WORDS],
    // The histories, as in `histories`.
    pub ended: [u32; HISTORY_WORDS],
    // The counts of each level, as in `tallies`.
    pub tallies: Tallies,
    // The forks, as in `queues`.
    pub queue: [u32; QUEUE_WORDS],
}
