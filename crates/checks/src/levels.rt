// Question 3: how many records there are of each kind, and their numbers. And the level table, of
// which questions 4, 5 and 17 are put.
ghost use Rattle.std.specs.Prelude.{◌≡◌, true, ◌++◌, ◌+◌, ◌≤◌, eqb, length, drop};
ghost use Rattle.lists.specs.Range.{all};
ghost use Rattle.lists.specs.Lists.{tab};
ghost use Rattle.session.specs.Record.{record_at, record_count, number_of, mask_of, zero_at, from};
ghost use Rattle.session.specs.Questions.{kinds_rise, question3};
ghost use Rattle.session_records.specs.Counting.{Counted};

use session::limits::{MAX_LEVELS, MAX_OBJECTS, MAX_STEPS};
use session_records::{Layout, masks, places, record};

// Whether `count` records from `first` on are numbered 0, 1, 2 .. in order.
fn is_numbered(session: &[u8], first: usize, count: usize) -> bool
    requires { first + count ≤ record_count session.now }
    ensures { result ≡ all count (λ i. eqb (number_of (record_at session.now (first + i))) i) }
{
    (0..count).all(|i| record::byte_at(session, first + i, places::NUMBER) as usize == i)
}

// Whether the unnamed bytes of the first `count` records, which are levels, are 0.
fn is_padded(session: &[u8], count: usize) -> bool
    requires { count ≤ record_count session.now }
    ensures { result ≡ all count (λ i. zero_at (from 3) (record_at session.now i)) }
{
    (0..count).all(|i| record::are_unused(session, i, masks::FROM_MASK_END, masks::ALL))
}

// Question 3, of a session whose kinds never fall.
#[tactic(auto, using(crate::proofs::Laws::Counted::question3_is))]
pub fn are_numbered(session: &[u8], layout: Layout) -> bool
    requires session_value { kinds_rise session.now ≡ true }
    requires counted { Counted session.now layout.levels layout.objects layout.steps }
    ensures { result ≡ question3 session.now }
{
    let Layout {
        levels,
        objects,
        steps,
    } = layout;
    levels <= MAX_LEVELS
        && objects <= MAX_OBJECTS
        && steps <= MAX_STEPS
        && is_numbered(session, 0, levels)
        && is_numbered(session, levels, objects)
        && is_padded(session, levels)
}

// Writes the masks of the first `levels` records, which are levels, to the front of `masks`.
pub fn fill_masks(session: &[u8], levels: usize, masks: &mut [u16])
    requires { (levels ≤ record_count session.now) × (levels ≤ length masks.old) }
    ensures { masks.new ≡ tab levels (λ i. mask_of (record_at session.now i)) ++ drop levels masks.old }
{
    for i in 0..levels {
        masks[i] = record::byte_at(session, i, places::MASK) as u16;
    }
}
