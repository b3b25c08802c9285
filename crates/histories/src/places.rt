// Where a history stands, and which of its words is what, under the names that the definitions give the
// places: stampPlace, endingPlace and so on. The reply's tag and number are two words.
ghost use Rattle.std.specs.Prelude.{◌≡◌, ◌≤◌, ◌<◌};
ghost use Rattle.session.specs.Limits.{max_levels};
ghost use Rattle.model.specs.Limits.{max_managers};
ghost use Rattle.histories.specs.Histories.{history_place};

use crate::limits::{LEVEL_WORDS, ROW_WORDS};

// The fork stamp.
pub const STAMP: usize = 0;

pub const ENDING: usize = 1;

pub const WRITES: usize = 2;

// The write stamps at the manager's start and at its end.
pub const FIRST: usize = 3;

pub const LAST: usize = 4;

pub const STEPS: usize = 5;

pub const TAG: usize = 6;

pub const NUMBER: usize = 7;

// Where history `i` of a level stands.
pub fn place_of(level: usize, i: usize) -> usize
    requires { (level < max_levels) × (i ≤ max_managers) }
    ensures { result ≡ history_place level i }
{
    LEVEL_WORDS * level + ROW_WORDS * i
}
