// Questions 12 to 15, which look at what is counted of each level and at the forks.
#![tactic(auto)]

ghost use Rattle.std.specs.Prelude.{◌≡◌, true, ◌&&◌, ◌<◌, length};
ghost use Rattle.dominance.specs.Table.{dominates};
ghost use Rattle.model.specs.Schedule.{holds_back};
ghost use Rattle.tallies.specs.Places.{managed};
ghost use Rattle.permits.specs.Permits.{first_at, lowest_of, free_of, ended_of, permit_of, Countable, Askable};

use tallies::Tallies;

// What questions 12 to 14 say of a scheduler step.
#[derive(Clone, Copy)]
pub enum Permit {
    Given,
    // Question 12: the level is not present.
    Absent,
    // Question 13: it has no manager that hasn't ended.
    Idle,
    // Question 14: one holds back the manager about to step.
    Blocked,
}

// Whether a level has a manager, and all managers have ended at the levels that it strictly dominates: the
// conservative rule. The plain run goes by it.
pub fn is_lowest(masks: &[u16], tallies: &Tallies, level: usize) -> bool
    requires { Countable masks.now tallies.now × (level < length masks.now) }
    ensures { result ≡ lowest_of masks.now tallies.now level }
{
    tallies.has_manager(level)
        && (0..masks.len()).all(|j| {
            !(level != j && tallies.has_manager(j) && lattice::dominates(masks, level, j))
        })
}

// Whether the first manager of level `j` that has not ended holds back one of this stamp at a level, which
// dominates `j`.
fn holds_back(
    masks: &[u16],
    tallies: &Tallies,
    queue: &[u32],
    level: usize,
    stamp: u32,
    j: usize,
) -> bool
    requires askable { Askable masks.now tallies.now queue.now }
    requires present { j < length masks.now }
    ensures { result ≡ (managed tallies.now j && (dominates masks.now level j && holds_back (first_at masks.now tallies.now queue.now j) stamp)) }
{
    tallies.has_manager(j)
        && (lattice::dominates(masks, level, j)
            && queues::holds_back(queue, j, tallies.ended(j), stamp))
}

// Question 14 of a level where no manager runs: does none hold back the first that waits? Of each level the
// first manager that has not ended is asked. The others there lie behind its whole interval of stamps: where
// it does not hold back, they do not.
fn is_free(masks: &[u16], tallies: &Tallies, queue: &[u32], level: usize) -> bool
    requires { Askable masks.now tallies.now queue.now × (level < length masks.now) × (managed tallies.now level ≡ true) }
    ensures { result ≡ free_of masks.now tallies.now queue.now level }
{
    let stamp = queues::stamp_at(queue, level, tallies.ended(level));
    (0..masks.len()).all(|j| !holds_back(masks, tallies, queue, level, stamp, j))
}

// Question 15: have all managers ended?
pub fn all_ended(masks: &[u16], tallies: &Tallies) -> bool
    requires { Countable masks.now tallies.now }
    ensures { result ≡ ended_of masks.now tallies.now }
{
    (0..masks.len()).all(|level| !tallies.has_manager(level))
}

// Questions 12 to 14 of a step at a level. Of one where a manager runs 14 is not put again: it said yes of
// that manager's start, and says so until the manager has ended.
pub fn ask(masks: &[u16], tallies: &Tallies, queue: &[u32], level: usize) -> Permit
    requires { Askable masks.now tallies.now queue.now }
    ensures { result ≡ permit_of masks.now tallies.now queue.now level }
{
    if level >= masks.len() {
        return Permit::Absent;
    }
    if tallies.is_busy(level) {
        return Permit::Given;
    }
    if tallies.waiting(level) == 0 {
        return Permit::Idle;
    }
    if !is_free(masks, tallies, queue, level) {
        return Permit::Blocked;
    }
    Permit::Given
}
