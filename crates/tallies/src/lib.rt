// What is counted of each level, in one layout for every run.
#![tactic(auto)]

ghost use Rattle.std.specs.Prelude.{◌≡◌, ◌+◌, ◌-◌, ◌≤◌, ◌<◌, ltb, length, List, ℕ, get_or, set};
ghost use Rattle.session.specs.Limits.{max_levels};
ghost use Rattle.model.specs.Limits.{max_managers};
ghost use Rattle.histories.specs.Histories.{HistoryRoom};
ghost use Rattle.tallies.specs.Places.{numbers_of, next_place, waiting_place, versions_place, busy_place, changes_place, number_of, begun_tallies, start_tallies, changed, unchanged_at, unchanged, Closed, busy_in, managed};

use model::MAX_MANAGERS;
use scripts::Ended;
use session::limits::MAX_LEVELS;
use std::marker::Model;

// What is counted of a level.
#[derive(Clone, Copy)]
pub struct Tally {
    // How many managers have ended.
    ended: usize,
    // The write stamp of the next manager.
    next: usize,
    // How many forks wait.
    waiting: usize,
    // How many versions there are.
    versions: usize,
    // Whether a manager runs.
    runs: bool,
    // Whether existence was written.
    changed: bool,
}

// What is counted of each level, and whether existence was written at any. Contracts see a list of numbers, as
// `tallies.specs.Places` says.
#[derive(Drop)]
pub struct Tallies {
    levels: [Tally; MAX_LEVELS],
    changed: bool,
}

impl Model for Tallies {
    ghost Value = { List ℕ };

    ghost view = { λ t. numbers_of t.levels t.changed };

    ghost invariant = { λ t. length t.levels ≡ max_levels };
}

impl Tallies {
    // What is counted before a run: nothing, and the first write stamp is 1.
    pub fn first() -> Tallies
        ensures { result ≡ start_tallies }
    {
        let none = Tally {
            ended: 0,
            next: 1,
            waiting: 0,
            versions: 0,
            runs: false,
            changed: false,
        };
        Tallies {
            levels: [none; MAX_LEVELS],
            changed: false,
        }
    }

    // How many managers of a level have ended.
    pub fn ended(&self, level: usize) -> usize
        requires { level < max_levels }
        ensures { result ≡ get_or self.now level 0 }
    {
        let tally = self.levels[level];
        tally.ended
    }

    // The write stamp of its next manager.
    pub fn next(&self, level: usize) -> usize
        requires { level < max_levels }
        ensures { result ≡ get_or self.now (next_place level) 0 }
    {
        let tally = self.levels[level];
        tally.next
    }

    // How many forks wait there.
    pub fn waiting(&self, level: usize) -> usize
        requires { level < max_levels }
        ensures { result ≡ get_or self.now (waiting_place level) 0 }
    {
        let tally = self.levels[level];
        tally.waiting
    }

    // How many forks started there.
    pub fn started(&self, level: usize) -> usize
        requires { (level < max_levels) × (get_or self.now level 0 ≤ max_managers) }
        ensures { result ≡ get_or self.now level 0 + get_or self.now (busy_place level) 0 }
    {
        let tally = self.levels[level];
        tally.runs as usize + tally.ended
    }

    // How many versions it has.
    pub fn versions(&self, level: usize) -> usize
        requires { level < max_levels }
        ensures { result ≡ get_or self.now (versions_place level) 0 }
    {
        let tally = self.levels[level];
        tally.versions
    }

    // So many managers of a level have ended.
    fn set_ended(&mut self, level: usize, ended: usize)
        requires { level < max_levels }
        ensures { self.new ≡ set self.old level ended }
    {
        self.levels[level].ended = ended;
    }

    // The write stamp of its next manager is this one.
    fn set_next(&mut self, level: usize, next: usize)
        requires { level < max_levels }
        ensures { self.new ≡ set self.old (next_place level) next }
    {
        self.levels[level].next = next;
    }

    // Whether a manager runs there.
    fn set_runs(&mut self, level: usize, runs: bool)
        requires { level < max_levels }
        ensures { self.new ≡ set self.old (busy_place level) (number_of runs) }
    {
        self.levels[level].runs = runs;
    }

    // Existence was written there.
    fn set_changed(&mut self, level: usize)
        requires { level < max_levels }
        ensures { self.new ≡ set self.old (changes_place level) 1 }
    {
        self.levels[level].changed = true;
    }

    // So many forks wait at a level.
    pub fn set_waiting(&mut self, level: usize, waiting: usize)
        requires { level < max_levels }
        ensures { self.new ≡ set self.old (waiting_place level) waiting }
    {
        self.levels[level].waiting = waiting;
    }

    // It has so many versions.
    pub fn set_versions(&mut self, level: usize, versions: usize)
        requires { level < max_levels }
        ensures { self.new ≡ set self.old (versions_place level) versions }
    {
        self.levels[level].versions = versions;
    }

    // The first fork that waits at a level starts.
    pub fn start(&mut self, level: usize)
        requires { (level < max_levels) × (0 < get_or self.old (waiting_place level) 0) }
        ensures { self.new ≡ begun_tallies self.old level }
    {
        let waiting = self.waiting(level) - 1;
        self.set_waiting(level, waiting);
        self.set_runs(level, true);
    }

    // The manager that ran at a level runs no more.
    pub fn stop(&mut self, level: usize)
        requires { level < max_levels }
        ensures { self.new ≡ set self.old (busy_place level) 0 }
    {
        self.set_runs(level, false);
    }

    // Keeps the history of a manager that has ended, and counts the manager at its level. The next one there
    // starts one above its end stamp.
    pub fn close(&mut self, ended: &mut [u32], level: usize, history: Ended)
        requires { HistoryRoom ended.old level (get_or self.old level 0) history }
        ensures { Closed level history ended.old ended.new self.old self.new }
    {
        let count = self.ended(level);
        histories::add(ended, level, count, history);
        self.set_ended(level, count + 1);
        self.set_next(level, history.last as usize + 1);
    }

    // Whether a level at which all forks that it kept have ended keeps one more. Each level counts its own.
    pub fn has_room(&self, level: usize) -> bool
        requires { level < max_levels }
        ensures { result ≡ ltb (get_or self.now level 0) max_managers }
    {
        self.ended(level) < MAX_MANAGERS
    }

    // Existence was written at a level.
    pub fn change(&mut self, level: usize)
        requires { level < max_levels }
        ensures { self.new ≡ changed level self.old }
    {
        self.set_changed(level);
        self.changed = true;
    }

    // Whether no existence was written at a level.
    pub fn is_level_unchanged(&self, level: usize) -> bool
        requires { level < max_levels }
        ensures { result ≡ unchanged_at self.now level }
    {
        !self.levels[level].changed
    }

    // Whether none was written at any level.
    pub fn is_unchanged(&self) -> bool
        ensures { result ≡ unchanged self.now }
    {
        !self.changed
    }

    // Whether a manager runs at a level.
    pub fn is_busy(&self, level: usize) -> bool
        requires { level < max_levels }
        ensures { result ≡ busy_in self.now level }
    {
        self.levels[level].runs
    }

    // Whether a level has a manager that hasn't ended.
    pub fn has_manager(&self, level: usize) -> bool
        requires { level < max_levels }
        ensures { result ≡ managed self.now level }
    {
        self.is_busy(level) || self.waiting(level) > 0
    }
}
