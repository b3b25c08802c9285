// CREATE and WITHDRAW: the script step is made, and what it writes stands in the fields at once.
ghost use Rattle.std.specs.Prelude.{◌≡◌, ◌≤◌, length};
ghost use Rattle.tallies.specs.Places.{tally_numbers};
ghost use Rattle.managers.specs.Steps.{Changeable};
ghost use Rattle.progress.specs.Changes.{Writable, Written, ChangeDone};

use crate::Progress;
use changes::Change;
use contents::Session;
use fields::EXISTENCE;
use frames::Frame;
use managers::Manager;
use session::Value;

impl Progress {
    // What a CREATE or WITHDRAW of a manager of a level writes, and that it does. `before` is the frame that made it, as
    // it was before the step.
    fn write(&mut self, level: usize, before: Frame, change: Option<Change>)
        requires { Writable self.old.current self.old.tallies level change }
        ensures written { Written level before change self.old.current self.old.tallies self.new.current self.new.tallies }
        ensures ended_stays { self.new.ended ≡ self.old.ended }
    {
        match change {
            Some(Change::Create { object, script }) => {
                let first = before.r1;
                let second = before.r2;
                let third = before.r3;
                let made = Some(script as u32);
                let current = &mut self.current;
                fields::set(current, object as usize, 0, first);
                fields::set(current, object as usize, 1, second);
                fields::set(current, object as usize, 2, third);
                fields::set(current, object as usize, EXISTENCE as usize, made);
                self.tallies.change(level);
            }
            Some(Change::Withdraw { object }) => {
                let withdrawn = Some(0);
                fields::set(
                    &mut self.current,
                    object as usize,
                    EXISTENCE as usize,
                    withdrawn,
                );
                self.tallies.change(level);
            }
            None => {}
        }
    }

    // A CREATE or WITHDRAW of a manager that runs, pops and ending included, with what it writes.
    pub fn change(&mut self, session: &Session, m: Manager) -> Manager
        requires changeable { Changeable session.now.bytes.now session.now.masks.now session.now.index.now self.old.current m }
        requires counted { tally_numbers ≤ length self.old.tallies }
        ensures change_done { ChangeDone session.now.bytes.now m result self.old.current self.old.tallies self.new.current self.new.tallies }
        ensures ended_stays { self.new.ended ≡ self.old.ended }
    {
        let made = m.change(session, &self.current);
        let manager = made.manager;
        let change = made.change;
        // The manager as it was: its registers are the fields of an object that is made.
        let core = m.core;
        let before = core.top;
        self.write(core.level as usize, before, change);
        manager
    }
}
