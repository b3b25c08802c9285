// Values of registers: the sum of two, and the test of a JUMP.
ghost use Rattle.std.specs.Prelude.{◌≡◌};
ghost use Rattle.scripts.specs.Value.{sum, is_nil_or0};

use session::Value;

// NIL. By a call, so that it is stored whole: as a constant only its tag would be.
pub fn nil() -> Value
    ensures { result ≡ None }
{
    None
}

// The sum of two values: NIL if either is NIL, or where it passes the greatest number, which is that of 32 bits.
#[tactic(auto, using(crate::proofs::Laws::Values::checked_sum), unfolding(scripts::specs::Value::sum))]
pub fn sum(x: Value, y: Value) -> Value
    ensures { result ≡ sum x y }
{
    x?.checked_add(y?)
}

// Whether a value is NIL or 0.
pub fn is_nil_or_0(v: Value) -> bool
    ensures { result ≡ is_nil_or0 v }
{
    v.unwrap_or(0) == 0
}
