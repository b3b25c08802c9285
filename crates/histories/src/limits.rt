// How many words keep the histories of a run, under the names that the definitions give them.
use crate::places::NUMBER;
use model::MAX_MANAGERS;
use session::limits::MAX_LEVELS;

// A history.
pub const ROW_WORDS: usize = NUMBER + 1;

// The histories of one level, and of all.
pub const LEVEL_WORDS: usize = ROW_WORDS * MAX_MANAGERS;

pub const HISTORY_WORDS: usize = LEVEL_WORDS * MAX_LEVELS;
