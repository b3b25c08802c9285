// How far a depth-first run has come: the start of a manager, and what a CREATE or WITHDRAW changes.
#![tactic(auto)]

mod writes;

ghost use Rattle.progress.specs.Starts.{StartReady, StartDone};

use contents::Session;
use fields::FIELD_WORDS;
use histories::limits::HISTORY_WORDS;
use managers::Manager;
use session::Message;
use tallies::Tallies;

// What a depth-first run keeps.
#[derive(Drop)]
pub struct Progress {
    // The fields and the existence of objects, as in `fields`.
    pub current: [u32; FIELD_WORDS],
    // The histories, as in `histories`.
    pub ended: [u32; HISTORY_WORDS],
    // How many managers of each level have ended, the write stamp of its next one, and whether existence was
    // written, as in the crate of that name.
    pub tallies: Tallies,
}

// A fork that is about to run, or runs: its level, its fork stamp, how many forks deep it is, and its
// message.
#[derive(Clone, Copy)]
pub struct Fork {
    pub level: u8,
    pub stamp: u32,
    pub depth: u8,
    pub message: Message,
}

impl Progress {
    // The manager of a fork starts: with the next write stamp of its level, and with the methods that its object has
    // then.
    pub fn start(&self, session: &Session, fork: Fork) -> Manager
        requires { StartReady session.now.bytes.now session.now.index.now self.now.current self.now.tallies fork }
        ensures { StartDone session.now.bytes.now self.now.current self.now.tallies fork result }
    {
        let message = fork.message;
        let next = self.tallies.next(fork.level as usize) as u16;
        let script = fields::script_in(&self.current, message.object as usize) as u8;
        Manager::start(session, fork.level, next, message, script)
    }
}
