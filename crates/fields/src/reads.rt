// What the words answer to a READ, and to the question whether an object is there.
ghost use Rattle.std.specs.Prelude.{◌≡◌, ◌<◌, true};
ghost use Rattle.session.specs.Limits.{fields as fieldCount, max_numbers};
ghost use Rattle.session.specs.Meaning.{Numbered};
ghost use Rattle.fields.specs.Reads.{own_script_of, script_found, script_told, found_of, is_own, Findable};

use crate::EXISTENCE;
use contents::Session;
use session::Value;
use session::limits::FIRST_MADE;

// What a manager's READ sees.
#[derive(Clone, Copy)]
pub struct Sight<'a> {
    // What the objects of the run hold.
    pub current: &'a [u32],
    // What was read of objects of other levels.
    pub cache: &'a [u32],
    // Whether an object of any level is taken as one of the manager's own.
    pub all: bool,
    // Whether no existence was written.
    pub unchanged: bool,
}

// A value of an object that is not at hand: the number of a field, or that of its existence. It is to be asked for.
#[derive(Clone, Copy)]
pub struct Missing {
    pub value: u8,
}

// The script of an object as long as no existence was written: its own methods, if it is one of the session's.
pub fn own_script(object: usize) -> u8
    requires { object < max_numbers }
    ensures { result ≡ own_script_of object }
{
    if object < FIRST_MADE {
        object as u8 + 1
    } else {
        0
    }
}

impl Sight<'_> {
    // The script of an object of the level, 0 where it is not there.
    pub fn script_here(&self, object: usize) -> u8
        requires { Findable self.now.current.now self.now.cache.now object }
        ensures { result ≡ script_found self.now.current.now self.now.cache.now true self.now.unchanged object }
    {
        if self.unchanged {
            own_script(object)
        } else {
            crate::script_in(self.current, object) as u8
        }
    }

    // Whether an object is taken as one of the manager's own: where every object is, or by its level.
    pub fn is_own(&self, session: &Session, level: usize, object: usize) -> bool
        requires { Numbered session.now.bytes.now object }
        ensures { result ≡ is_own session.now.bytes.now self.now.all level object }
    {
        self.all || session.level_of(object) == level
    }

    // The script of an object, 0 where it is not there: from `current` if it is taken as one of the manager's own
    // (`own`), or else as it was read.
    pub fn script_of(&self, own: bool, object: usize) -> Result<u8, Missing>
        requires { Findable self.now.current.now self.now.cache.now object }
        ensures { result ≡ script_told (script_found self.now.current.now self.now.cache.now own self.now.unchanged object) }
    {
        if self.unchanged || own {
            return Ok(self.script_here(object));
        }
        if !crate::is_known(self.cache, object, EXISTENCE as usize) {
            return Err(Missing { value: EXISTENCE });
        }
        Ok(crate::script_in(self.cache, object) as u8)
    }

    // A field of an object: from `current` if it is taken as one of the manager's own (`own`), or else as it was
    // read. Of an object that is not there it is NIL.
    pub fn find(&self, own: bool, object: usize, k: u8) -> Result<Value, Missing>
        requires { Findable self.now.current.now self.now.cache.now object × (k < fieldCount) }
        ensures { result ≡ found_of self.now.current.now self.now.cache.now own self.now.unchanged object k }
    {
        if self.script_of(own, object)? == 0 {
            return Ok(None);
        }
        if own {
            return Ok(crate::get(self.current, object, k as usize));
        }
        if !crate::is_known(self.cache, object, k as usize) {
            return Err(Missing { value: k });
        }
        Ok(crate::get(self.cache, object, k as usize))
    }
}
