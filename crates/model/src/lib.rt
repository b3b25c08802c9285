// What a run is: definitions and computed cases; what is proved of every run is crate `theorems`. Of code there are
// only the numbers that documents 01 and 02 fix for runs, under the names that the definitions give them.
#![tactic(auto)]

use scripts::MAX_WRITES;
use session::limits::{MAX_LEVELS, MAX_NUMBERS, RECORD_BYTES};

// How many forks a level keeps.
pub const MAX_MANAGERS: usize = 32;

// Question 10: two numbers for each write of each manager.
pub const WORK_NUMBERS: usize = MAX_LEVELS * MAX_MANAGERS * MAX_WRITES as usize * 2;

// Question 11: a record for each number of an object, each manager and the reply.
pub const RESULT_BYTES: usize = RECORD_BYTES * (MAX_NUMBERS + MAX_LEVELS * MAX_MANAGERS + 1);

// A line of a page: 27 columns and a line feed.
pub const LINE_BYTES: usize = 27 + 1;

// Question 16: a line for each manager, the total and each level.
pub const PAGE_BYTES: usize = LINE_BYTES * (MAX_LEVELS * MAX_MANAGERS + 1 + MAX_LEVELS);
