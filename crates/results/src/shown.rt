// The records that a clearance is shown, written to a buffer one after the other. Each function writes to the
// buffer's start and returns how many bytes it wrote.
ghost use Rattle.std.specs.Prelude.{◌≡◌, map, ◌+◌, ◌*◌, ◌≤◌, ◌<◌, length};
ghost use Rattle.dominance.specs.Table.{dominates};
ghost use Rattle.session.specs.Limits.{record_bytes, max_levels, max_numbers};
ghost use Rattle.lists.specs.Lists.{tab, joined};
ghost use Rattle.session.specs.Meaning.{Numbered};
ghost use Rattle.session.specs.Program.{program_of};
ghost use Rattle.fields.specs.Fields.{field_at, FieldsReady};
ghost use Rattle.model.specs.Limits.{max_managers};
ghost use Rattle.model.specs.Result.{history_record, reply_of};
ghost use Rattle.histories.specs.Histories.{histories_at, ended_in, HistoriesReady};
ghost use Rattle.results.specs.Writing.{shown_object, shown_objects, shown_level, shown_reply, NumberedFrom};
ghost use Rattle.lists.specs.Placed.{Placed};

use contents::Session;
use fields::values;
use histories::places;
use session::Value;
use session::limits::{FIRST_MADE, MADE_OBJECTS, RECORD_BYTES};
use tallies::Tallies;

// What a run leaves, and the clearance that it is shown to.
#[derive(Clone, Copy)]
pub struct Outcome<'a> {
    pub session: Session<'a>,
    pub fields: &'a [u32],
    pub histories: &'a [u32],
    // How many histories each level has, and what else is counted of it.
    pub counts: &'a Tallies,
    pub clearance: usize,
    ghost fields_ready: { FieldsReady session.bytes.now session.masks.now fields.now },
    ghost histories_ready: { HistoriesReady histories.now counts.now },
}

// Writes one record.
fn put(bytes: &[u8; RECORD_BYTES], res: &mut [u8]) -> usize
    requires { record_bytes ≤ length res.old }
    ensures { Placed bytes.now 0 res.old res.new result }
{
    res[..RECORD_BYTES].copy_from_slice(bytes);
    RECORD_BYTES
}

impl Outcome<'_> {
    // Writes an object's record, if the object is there and the clearance dominates its level.
    fn write_object(&self, object: usize, res: &mut [u8]) -> usize
        requires { Numbered self.now.session.bytes.now object × (record_bytes ≤ length res.old) }
        ensures { Placed (shown_object (program_of self.now.session.bytes.now) (field_at self.now.fields.now) self.now.clearance object) 0 res.old res.new result }
    {
        if !fields::is_there(self.fields, object) {
            return 0;
        }
        let level = self.session.level_of(object);
        if lattice::dominates(self.session.masks, self.clearance, level) {
            let made = result_records::object_record(self.fields, object, level);
            put(&made, res)
        } else {
            0
        }
    }

    // Writes the records of those of the `count` objects from number `first` on that are shown, by rising number.
    fn write_range(&self, first: usize, count: usize, res: &mut [u8]) -> usize
        requires { NumberedFrom self.now.session.bytes.now first count × (record_bytes * count ≤ length res.old) }
        ensures { Placed (joined (tab count (λ i. shown_object (program_of self.now.session.bytes.now) (field_at self.now.fields.now) self.now.clearance (first + i)))) 0 res.old res.new result }
    {
        let mut at = 0;
        for i in 0..count {
            at += self.write_object(first + i, &mut res[at..]);
        }
        at
    }

    // Writes the records of the objects that are shown: those of the session by rising number, then those that
    // were made.
    pub fn write_objects(&self, res: &mut [u8]) -> usize
        requires { record_bytes * max_numbers ≤ length res.old }
        ensures { Placed (shown_objects (program_of self.now.session.bytes.now) (field_at self.now.fields.now) self.now.clearance) 0 res.old res.new result }
    {
        let at = self.write_range(0, self.session.object_count(), res);
        let made = MADE_OBJECTS * self.session.masks.len();
        at + self.write_range(FIRST_MADE, made, &mut res[at..])
    }

    // Writes the `count` histories of a level.
    fn write_histories(&self, level: usize, count: usize, res: &mut [u8]) -> usize
        requires { (level < max_levels) × (count ≤ max_managers) × (record_bytes * count ≤ length res.old) }
        ensures { Placed (joined (map (history_record level) (histories_at self.now.histories.now level count))) 0 res.old res.new result }
    {
        let mut at = 0;
        for i in 0..count {
            let made = result_records::history_record(self.histories, level, i);
            at += put(&made, &mut res[at..]);
        }
        at
    }

    // Writes a level's histories, if the clearance dominates it.
    fn write_level(&self, level: usize, res: &mut [u8]) -> usize
        requires { (level < max_levels) × (record_bytes * max_managers ≤ length res.old) }
        ensures { Placed (shown_level (dominates self.now.session.masks.now) (ended_in self.now.histories.now self.now.counts.now) self.now.clearance level) 0 res.old res.new result }
    {
        if lattice::dominates(self.session.masks, self.clearance, level) {
            self.write_histories(level, self.counts.ended(level), res)
        } else {
            0
        }
    }

    // Writes the levels' histories, by rising number.
    pub fn write_levels(&self, res: &mut [u8]) -> usize
        requires { record_bytes * (max_levels * max_managers) ≤ length res.old }
        ensures { Placed (joined (tab (length self.now.session.masks.now) (shown_level (dominates self.now.session.masks.now) (ended_in self.now.histories.now self.now.counts.now) self.now.clearance))) 0 res.old res.new result }
    {
        let mut at = 0;
        for level in 0..self.session.masks.len() {
            at += self.write_level(level, &mut res[at..]);
        }
        at
    }

    // The reply of the first of the `count` histories of a level, NIL where there is none.
    fn first_reply(&self, level: usize, count: usize) -> Value
        requires { level < max_levels }
        ensures { result ≡ reply_of (histories_at self.now.histories.now level count) }
    {
        if count == 0 {
            return None;
        }
        let at = places::place_of(level, 0);
        values::value_of(
            self.histories[at + places::TAG],
            self.histories[at + places::NUMBER],
        )
    }

    // Writes the root's reply, if the clearance dominates its level.
    pub fn write_reply(&self, root_level: usize, res: &mut [u8]) -> usize
        requires { (root_level < max_levels) × (record_bytes ≤ length res.old) }
        ensures { Placed (shown_reply (dominates self.now.session.masks.now) (ended_in self.now.histories.now self.now.counts.now) self.now.clearance root_level) 0 res.old res.new result }
    {
        if lattice::dominates(self.session.masks, self.clearance, root_level) {
            let reply = self.first_reply(root_level, self.counts.ended(root_level));
            let made = result_records::reply_record(root_level, reply);
            put(&made, res)
        } else {
            0
        }
    }
}
