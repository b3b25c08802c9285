// The forks that wait at each level, and those that started there, in a lent slice of words.
//
// Each level has room for MAX_MANAGERS forks. A level's forks that started stand first, those that wait
// behind them, by rising stamp: a fork that starts is not moved.
#![tactic(auto)]

ghost use Rattle.std.specs.Prelude.{ℕ, ◌+◌, ◌-◌, ◌^◌, ◌≤◌, ◌<◌, ◌≡◌, get_or};
ghost use Rattle.session.specs.Limits.{max_levels};
ghost use Rattle.scripts.specs.Limits.{max_forks};
ghost use Rattle.model.specs.Limits.{max_managers, stamp_digits};
ghost use Rattle.model.specs.Fork.{child_stamp};
ghost use Rattle.model.specs.Schedule.{holds_back};
ghost use Rattle.queues.specs.Queue.{row_of, row_of_child, fork_place, fork_at, forks_at, There, RootRow, ChildRow, Room, is_dropped, Arrived};

use fields::values;
use model::MAX_MANAGERS;
use session::Message;
use session::limits::MAX_LEVELS;

// Which of a fork's words is what, under the names that the definitions give the places: stampPlace,
// depthPlace and so on. The parameter's tag and number are two words.
const STAMP: usize = 0;

const DEPTH: usize = 1;

const OBJECT: usize = 2;

const NAME: usize = 3;

const TAG: usize = 4;

const NUMBER: usize = 5;

// From here on, for each level, the write stamp that an ancestor there had at its fork.
const CARRIED: usize = 6;

// How many words a fork has, and the forks of all levels: forkWords, queueWords.
pub const FORK_WORDS: usize = CARRIED + MAX_LEVELS;

pub const QUEUE_WORDS: usize = FORK_WORDS * (MAX_MANAGERS * MAX_LEVELS);

// The digits of a fork stamp after the first, stampDigits, and the bits of a digit.
const STAMP_DIGITS: u32 = 7;

const DIGIT_BITS: u32 = 4;

// Where fork `i` of a level stands.
fn place_of(level: usize, i: usize) -> usize
    requires { (level < max_levels) × (i ≤ max_managers) }
    ensures { result ≡ fork_place level i }
{
    FORK_WORDS * (MAX_MANAGERS * level + i)
}

// The words of a fork of a message, that carries no write stamp.
fn row_of(stamp: u32, depth: u8, message: Message) -> [u32; FORK_WORDS]
    ensures { result ≡ row_of stamp depth message }
{
    let parameter = message.parameter;
    let mut row = [0u32; FORK_WORDS];
    row[STAMP] = stamp;
    row[DEPTH] = depth as u32;
    row[OBJECT] = message.object as u32;
    row[NAME] = message.name as u32;
    row[TAG] = values::tag_of(parameter) as u32;
    row[NUMBER] = values::number_in(parameter);
    row
}

// The fork stamp of fork `i` of a level.
pub fn stamp_at(queue: &[u32], level: usize, i: usize) -> u32
    requires { There queue.now level i }
    ensures { (n : ℕ) → (fork_at n queue.now level i).stamp ≡ result }
{
    queue[place_of(level, i) + STAMP]
}

// How many forks deep it is.
pub fn depth_at(queue: &[u32], level: usize, i: usize) -> u8
    requires { There queue.now level i }
    ensures { (n : ℕ) → (fork_at n queue.now level i).depth ≡ result }
{
    (queue[place_of(level, i) + DEPTH] & 0xff) as u8
}

// Its message.
pub fn message_at(queue: &[u32], level: usize, i: usize) -> Message
    requires { There queue.now level i }
    ensures { (n : ℕ) → (fork_at n queue.now level i).message ≡ result }
{
    let at = place_of(level, i);
    let parameter = values::value_of(queue[at + TAG], queue[at + NUMBER]);
    Message {
        object: (queue[at + OBJECT] & 0xff) as u8,
        name: (queue[at + NAME] & 0xff) as u8,
        parameter,
    }
}

// The write stamp that it carries for level `j`, or 0.
pub fn carried_at(queue: &[u32], level: usize, i: usize, j: usize) -> u16
    requires { There queue.now level i × (j < max_levels) }
    ensures { (n : ℕ) → j < n → get_or (fork_at n queue.now level i).carried j 0 ≡ result }
{
    (queue[place_of(level, i) + CARRIED + j] & 0xffff) as u16
}

// The fork stamp of the next child of a manager that has made `forks`.
pub fn child_stamp(stamp: u32, depth: u8, forks: u8) -> u32
    requires { (depth ≤ stamp_digits) × (forks < max_forks) × (stamp + 16 ^ (stamp_digits + 1 - depth) ≤ 2 ^ 32) }
    ensures { result ≡ child_stamp stamp depth (forks + 1) }
{
    let place = DIGIT_BITS * (STAMP_DIGITS - depth as u32);
    stamp + ((forks as u32 + 1) << place)
}

// Whether fork `i` of a level holds back a manager of this fork stamp: it has a smaller one, and is no
// ancestor. So all of its interval of stamps lies before.
pub fn holds_back(queue: &[u32], level: usize, i: usize, stamp: u32) -> bool
    requires { There queue.now level i × ((n : ℕ) → (fork_at n queue.now level i).depth ≤ stamp_digits + 1) }
    ensures { (n : ℕ) → holds_back (fork_at n queue.now level i) stamp ≡ result }
{
    let depth = depth_at(queue, level, i);
    let place = DIGIT_BITS * (STAMP_DIGITS + 1 - depth as u32);
    stamp_at(queue, level, i) as u64 + (1u64 << place) <= stamp as u64
}

// The fork of the root message.
pub fn root_row(message: Message) -> [u32; FORK_WORDS]
    ensures { (result ≡ row_of 0 0 message) × RootRow message result }
{
    row_of(0, 0, message)
}

// A fork made by the manager of fork `i` of a level: it carries what that one carries, and for the level
// the write stamp `carried`.
pub fn child_row(
    queue: &[u32],
    level: usize,
    i: usize,
    stamp: u32,
    depth: u8,
    carried: u16,
    message: Message,
) -> [u32; FORK_WORDS]
    requires { There queue.now level i }
    ensures { (result ≡ row_of_child queue.now level i stamp depth carried message) × ChildRow queue.now level i stamp depth carried message result }
{
    let mut row = row_of(stamp, depth, message);
    let from = place_of(level, i) + CARRIED;
    row[CARRIED..].copy_from_slice(&queue[from..from + MAX_LEVELS]);
    row[CARRIED + level] = carried as u32;
    row
}

// Whether a level where `started` have started and `waiting` wait drops a fork of this stamp, that
// arrives: it is full, and none that waits has a greater stamp. Such a fork's row need not be made.
pub fn drops(queue: &[u32], level: usize, started: usize, waiting: usize, stamp: u32) -> bool
    requires { Room queue.now level started waiting }
    ensures { (n : ℕ) → is_dropped started (forks_at n queue.now level started waiting) stamp ≡ result }
{
    if started + waiting < MAX_MANAGERS {
        return false;
    }
    if waiting == 0 {
        return true;
    }
    stamp_at(queue, level, MAX_MANAGERS - 1) <= stamp
}

// A fork arrives at a level where `started` have started and `waiting` wait: of those that wait and this
// one, those of smallest stamp are kept, at most MAX_MANAGERS with those that started. Returns how many wait then.
pub fn arrive(
    queue: &mut [u32],
    level: usize,
    started: usize,
    waiting: usize,
    row: &[u32; FORK_WORDS],
) -> usize
    requires { Room queue.old level started waiting }
    ensures { Arrived queue.old queue.new level started waiting row.now result }
{
    rows::insert(
        queue,
        place_of(level, started),
        waiting,
        MAX_MANAGERS - started,
        row,
    )
}
