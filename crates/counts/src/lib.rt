// What is counted of each level, as it may be lent to a function: as a run keeps it, or in numbers of a caller's own.
#![tactic(auto)]

ghost use Rattle.std.specs.Prelude.{◌≡◌, ◌+◌, ◌≤◌, ◌<◌, ℕ, List, [], length, get_or, set};
ghost use Rattle.session.specs.Limits.{max_levels};
ghost use Rattle.model.specs.Limits.{max_managers};
ghost use Rattle.counts.specs.Only.{only};
ghost use Rattle.tallies.specs.Places.{tally_numbers, waiting_place, versions_place, busy_place, unchanged_at, unchanged};

use session::limits::MAX_LEVELS;
use tallies::Tallies;

// Where the parts stand in a caller's numbers, a number for each level in each. How many managers have ended at a
// level stands at its own number. Behind these stand the write stamps, and then how many forks wait.
const WAITING: usize = 2 * MAX_LEVELS;

// How many versions there are.
const VERSIONS: usize = 3 * MAX_LEVELS;

// 1 while a manager runs.
const RUNNING: usize = 4 * MAX_LEVELS;

// 0 as long as no existence was written at a level, and one number behind all of these, 0 as long as none was
// written at any.
const CHANGES: usize = 5 * MAX_LEVELS;

const ALL_CHANGES: usize = 6 * MAX_LEVELS;

// A type of which a slice holds what is counted of each level. Contracts see the slice as a list of numbers, as
// `tallies.specs.Places` says: each function asks that all of them are there.
pub trait Counts: Sized {
    // The numbers that a slice stands for.
    ghost numbers: { List Self → List ℕ };

    // How many managers of a level have ended.
    fn ended(counts: &[Self], level: usize) -> usize
        requires { (level < max_levels) × (tally_numbers ≤ length (numbers counts.now)) }
        ensures { result ≡ get_or (numbers counts.now) level 0 };

    // How many forks wait there.
    fn waiting(counts: &[Self], level: usize) -> usize
        requires { (level < max_levels) × (tally_numbers ≤ length (numbers counts.now)) }
        ensures { result ≡ get_or (numbers counts.now) (waiting_place level) 0 };

    // How many forks started there.
    fn started(counts: &[Self], level: usize) -> usize
        requires { (level < max_levels) × ((tally_numbers ≤ length (numbers counts.now)) × (get_or (numbers counts.now) level 0 + get_or (numbers counts.now) (busy_place level) 0 ≤ max_managers)) }
        ensures { result ≡ get_or (numbers counts.now) level 0 + get_or (numbers counts.now) (busy_place level) 0 };

    // How many versions it has.
    fn versions(counts: &[Self], level: usize) -> usize
        requires { (level < max_levels) × (tally_numbers ≤ length (numbers counts.now)) }
        ensures { result ≡ get_or (numbers counts.now) (versions_place level) 0 };

    // Whether no existence was written at a level.
    fn is_level_unchanged(counts: &[Self], level: usize) -> bool
        requires { (level < max_levels) × (tally_numbers ≤ length (numbers counts.now)) }
        ensures { result ≡ unchanged_at (numbers counts.now) level };

    // Whether none was written at any level.
    fn is_unchanged(counts: &[Self]) -> bool
        requires { tally_numbers ≤ length (numbers counts.now) }
        ensures { result ≡ unchanged (numbers counts.now) };

    // So many forks wait at a level.
    fn set_waiting(counts: &mut [Self], level: usize, waiting: usize)
        requires { (level < max_levels) × (tally_numbers ≤ length (numbers counts.old)) }
        ensures { numbers counts.new ≡ set (numbers counts.old) (waiting_place level) waiting };

    // It has so many versions.
    fn set_versions(counts: &mut [Self], level: usize, versions: usize)
        requires { (level < max_levels) × (tally_numbers ≤ length (numbers counts.old)) }
        ensures { numbers counts.new ≡ set (numbers counts.old) (versions_place level) versions };
}

// A caller's numbers stand for themselves. There may be any number behind those that are counted, and any there.
impl Counts for usize {
    ghost numbers = { λ counts. counts };

    fn ended(counts: &[usize], level: usize) -> usize {
        counts[level]
    }

    fn waiting(counts: &[usize], level: usize) -> usize {
        counts[WAITING + level]
    }

    fn started(counts: &[usize], level: usize) -> usize {
        counts[level] + counts[RUNNING + level]
    }

    fn versions(counts: &[usize], level: usize) -> usize {
        counts[VERSIONS + level]
    }

    fn is_level_unchanged(counts: &[usize], level: usize) -> bool {
        counts[CHANGES + level] == 0
    }

    fn is_unchanged(counts: &[usize]) -> bool {
        counts[ALL_CHANGES] == 0
    }

    fn set_waiting(counts: &mut [usize], level: usize, waiting: usize) {
        counts[WAITING + level] = waiting;
    }

    fn set_versions(counts: &mut [usize], level: usize, versions: usize) {
        counts[VERSIONS + level] = versions;
    }
}

// What a run keeps is lent as a slice of one: another has no numbers, so none of these may be asked of it.
impl Counts for Tallies {
    ghost numbers = { only };

    fn ended(counts: &[Tallies], level: usize) -> usize {
        counts[0].ended(level)
    }

    fn waiting(counts: &[Tallies], level: usize) -> usize {
        counts[0].waiting(level)
    }

    fn started(counts: &[Tallies], level: usize) -> usize {
        counts[0].started(level)
    }

    fn versions(counts: &[Tallies], level: usize) -> usize {
        counts[0].versions(level)
    }

    fn is_level_unchanged(counts: &[Tallies], level: usize) -> bool {
        counts[0].is_level_unchanged(level)
    }

    fn is_unchanged(counts: &[Tallies]) -> bool {
        counts[0].is_unchanged()
    }

    fn set_waiting(counts: &mut [Tallies], level: usize, waiting: usize) {
        counts[0].set_waiting(level, waiting);
    }

    fn set_versions(counts: &mut [Tallies], level: usize, versions: usize) {
        counts[0].set_versions(level, versions);
    }
}
