// What script steps make of a core.
ghost use Rattle.std.specs.Prelude.{◌≤◌, ◌<◌, ◌≡◌, cond};
ghost use Rattle.session.specs.Limits.{max_numbers, fields, registers, names};
ghost use Rattle.session.specs.Parts.{level_count, object_count};
ghost use Rattle.session.specs.Meaning.{Numbered};
ghost use Rattle.scripts.specs.Limits.{max_script_steps};
ghost use Rattle.scripts.specs.Value.{is_nil_or0};
ghost use Rattle.scripts.specs.Frame.{frame_for, register, with_register, at_step};
ghost use Rattle.scripts.specs.Manager.{charged, called, forked};
ghost use Rattle.frames.specs.Frames.{Method};
ghost use Rattle.cores.specs.Moves.{Able, Moves, Makes, passed, past_of, next_top, own_field};

use crate::{Core, Effect};
use frames::{Frame, values};
use scripts::{Ending, MAX_FORKS, MAX_FRAMES, MAX_WRITES};
use session::Value;

impl Core {
    // A script step that leaves another top.
    fn step_to(self, top: Frame) -> Core
        requires { self.steps < max_script_steps }
        ensures { result ≡ next_top self top }
    {
        let steps = self.steps + 1;
        Core { steps, top, ..self }
    }

    // A script step that does nothing but pass.
    pub fn pass(self) -> Core
        requires { Able self }
        ensures { Moves self result (past_of self) }
    {
        let f = self.top;
        self.step_to(f.past())
    }

    // A script step that sets a register.
    pub fn put(self, k: u8, v: Value) -> Core
        requires { Able self }
        ensures { Moves self result (with_register (past_of self) k v) }
    {
        let f = self.top;
        let past = f.past();
        self.step_to(past.with_register(k, v))
    }

    // JUMP to step `b`, if register `a` is NIL or 0.
    pub fn jump(self, a: u8, b: u8) -> Core
        requires { Able self × (b ≤ self.top.count) }
        ensures { Moves self result (cond (is_nil_or0 (register (past_of self) a)) (at_step (past_of self) b) (past_of self)) }
    {
        let f = self.top;
        if values::is_nil_or_0(f.register(a)) {
            let next = b as usize;
            return self.step_to(Frame { next, ..f });
        }
        self.pass()
    }

    // A frame above the top, of name `b` of object `c` with a script, whose reply goes to register `a`. A
    // ninth is not made.
    pub fn call(self, a: u8, b: u8, c: u8, script: u8, returns: bool) -> Core
        requires { Able self × (a < registers) × (b < names) }
        ensures { Makes (λ s. Numbered s c × (script ≤ object_count s)) self result (λ m. called m (passed m) a (frame_for c script b a returns (register (passed m) a))) }
    {
        if self.height >= MAX_FRAMES {
            return self.put(a, None);
        }
        let f = self.top;
        let parameter = f.register(a);
        let m = self.pass();
        m.causing(Effect::Call {
            object: c,
            way: frames::way_of(frames::slot_of(script, b), frames::answer_of(a, returns)),
            parameter,
        })
    }

    // A fork of name `b` of object `c` at a level, which replies NIL to register `a`. A sixteenth is not
    // made.
    pub fn fork(self, a: u8, b: u8, c: u8, level: u8) -> Core
        requires { Able self }
        ensures { Makes (λ s. (level < level_count s) × Method c b s) self result (λ m. forked m (passed m) a level (record { object = c; name = b; parameter = register (passed m) a })) }
    {
        if self.forks >= MAX_FORKS {
            return self.put(a, None);
        }
        let f = self.top;
        let parameter = f.register(a);
        let m = self.put(a, None);
        let forks = m.forks + 1;
        let effect = Effect::Fork {
            level,
            object: c,
            name: b,
            parameter,
        };
        Core { forks, effect, ..m }
    }

    // A write of register `a` to field `b` of the top's object, which is of the manager's level. A seventeenth is not
    // made: it ends the manager.
    pub fn write_own(self, a: u8, b: u8) -> Core
        requires { Able self × (self.top.object < max_numbers) }
        ensures { Makes (λ s. Numbered s self.top.object × (b < fields)) self result (λ m. charged m (passed m) (passed m) (own_field (passed m) b (register (passed m) a))) }
    {
        let f = self.top;
        let m = self.pass();
        if self.writes >= MAX_WRITES {
            return Core {
                ending: Ending::OutOfWrites,
                effect: Effect::End,
                ..m
            };
        }
        let writes = m.writes + 1;
        let effect = Effect::Write {
            object: f.object as u8,
            field: b,
            value: f.register(a),
        };
        Core {
            writes,
            effect,
            ..m
        }
    }
}
