// Level tables: which level dominates which, whether a table is an order with least upper and greatest
// lower bounds (questions 4 and 5 of document 01, 17 of document 02), and the join of two levels.
//
// A table is a lent slice with one mask for each level: bit k of mask i is set when level i
// dominates level k. A mask of 16 bits has room for sixteen levels.
#![tactic(auto)]

ghost use Rattle.std.specs.Prelude.{◌≡◌, true, not, ◌&&◌, ◌^◌, eqb, ltb, length};
ghost use Rattle.lists.specs.Range.{implies, all};
ghost use Rattle.dominance.specs.Order.{reflexive, antisymmetric, transitive};
ghost use Rattle.dominance.specs.Join.{is_upper, is_least};
ghost use Rattle.dominance.specs.Meet.{is_lowest};
ghost use Rattle.dominance.specs.Table.{bit, dominates, names_present, is_ordered, join_of, is_joined, is_met, verdict_of};

use dominance::Fault;

// The levels that one mask has room for.
const WIDTH: usize = 16;

// Whether bit `k` of `mask` is set. No bit from 16 on is.
fn has_bit(mask: u16, k: usize) -> bool
    ensures { result ≡ bit mask k }
{
    k < WIDTH && (mask >> k) % 2 == 1
}

// Whether level `upper` dominates level `lower`. A level that is not in the table dominates none.
#[tactic(auto, using(dominance::proofs::Laws::Table::absent), unfolding(dominance::specs::Table::dominates))]
pub fn dominates(masks: &[u16], upper: usize, lower: usize) -> bool
    ensures { result ≡ dominates masks.now upper lower }
{
    upper < masks.len() && has_bit(masks[upper], lower)
}

// Whether no bit of `mask` from `levels` on is set.
fn names_below(mask: u16, levels: usize) -> bool
    ensures { result ≡ ltb mask (2 ^ levels) }
{
    WIDTH <= levels || mask >> levels == 0
}

// Question 4, its first part: whether each mask names only present levels, and its own.
fn names_levels(masks: &[u16]) -> bool
    ensures { result ≡ (names_present masks.now && reflexive (length masks.now) (dominates masks.now)) }
{
    let n = masks.len();
    masks.iter().all(|m| names_below(*m, n)) && (0..n).all(|i| dominates(masks, i, i))
}

// Whether levels `i` and `j` dominate each other.
fn are_mutual(masks: &[u16], i: usize, j: usize) -> bool
    ensures { result ≡ (dominates masks.now i j && dominates masks.now j i) }
{
    dominates(masks, i, j) && dominates(masks, j, i)
}

// Whether level `i` and no level before it dominate each other.
fn is_mutual_with_none(masks: &[u16], i: usize) -> bool
    ensures { result ≡ all i (λ j. not (dominates masks.now i j && dominates masks.now j i)) }
{
    (0..i).all(|j| !are_mutual(masks, i, j))
}

// Question 4, its second part: whether no two levels dominate each other. A pair is tested once.
fn no_two_mutual(masks: &[u16]) -> bool
    ensures { result ≡ antisymmetric (length masks.now) (dominates masks.now) }
{
    (0..masks.len()).all(|i| is_mutual_with_none(masks, i))
}

// Whether level `i` dominates `j`, `j` dominates `k`, and `i` does not dominate `k`.
fn is_gap(masks: &[u16], i: usize, j: usize, k: usize) -> bool
    ensures { result ≡ not (implies (dominates masks.now i j && dominates masks.now j k) (dominates masks.now i k)) }
{
    dominates(masks, i, j) && dominates(masks, j, k) && !dominates(masks, i, k)
}

// Question 4, its third part: whether dominance carries through.
fn carries_through(masks: &[u16]) -> bool
    ensures { result ≡ transitive (length masks.now) (dominates masks.now) }
{
    let n = masks.len();
    let mut whole = true;
    'levels: for i in 0..n {
        for j in 0..n {
            for k in 0..n {
                if is_gap(masks, i, j, k) {
                    whole = false;
                    break 'levels;
                }
            }
        }
    }
    whole
}

// Question 4.
#[tactic(auto, using(dominance::proofs::Laws::Table::ordered_parts))]
fn is_ordered(masks: &[u16]) -> bool
    ensures { result ≡ is_ordered masks.now }
{
    names_levels(masks) && no_two_mutual(masks) && carries_through(masks)
}

// Whether level `u` dominates both `a` and `b`.
fn is_upper(masks: &[u16], a: usize, b: usize, u: usize) -> bool
    ensures { result ≡ is_upper (dominates masks.now) a b u }
{
    dominates(masks, u, a) && dominates(masks, u, b)
}

// Whether `v` is an upper bound of `a` and `b` that does not dominate `u`: then `u` is not the least.
fn undercuts(masks: &[u16], a: usize, b: usize, u: usize, v: usize) -> bool
    ensures { result ≡ not (implies (is_upper (dominates masks.now) a b v) (dominates masks.now v u)) }
{
    is_upper(masks, a, b, v) && !dominates(masks, v, u)
}

// Whether `u` is the least upper bound of `a` and `b`.
fn is_least(masks: &[u16], a: usize, b: usize, u: usize) -> bool
    ensures { result ≡ is_least (length masks.now) (dominates masks.now) a b u }
{
    is_upper(masks, a, b, u) && (0..masks.len()).all(|v| !undercuts(masks, a, b, u, v))
}

// The least upper bound of `a` and `b`, or the number of levels where they have none. On its own in the compiled
// program: in each caller of `join`, most of which seldom come here, the search would take room.
#[inline(never)]
fn least_upper(masks: &[u16], a: usize, b: usize) -> usize
    ensures { result ≡ join_of masks.now a b }
{
    let n = masks.len();
    (0..n).find(|u| is_least(masks, a, b, *u)).unwrap_or(n)
}

// The join of `a` and `b`: their least upper bound, or the number of levels where they have none.
// Of a table that passed question 4. Where one of the two dominates the other its mask answers,
// and no level is searched for.
pub fn join(masks: &[u16], a: usize, b: usize) -> usize
    requires { is_ordered masks.now ≡ true }
    ensures { result ≡ join_of masks.now a b }
{
    if dominates(masks, a, b) {
        return a;
    }
    if dominates(masks, b, a) {
        return b;
    }
    least_upper(masks, a, b)
}

// Whether level `a` has a join with each level before it.
fn has_joins_before(masks: &[u16], a: usize) -> bool
    requires { is_ordered masks.now ≡ true }
    ensures { result ≡ all a (λ b. not (eqb (join_of masks.now a b) (length masks.now))) }
{
    let n = masks.len();
    (0..a).all(|b| join(masks, a, b) != n)
}

// Question 5, of a table that passed question 4. A pair is tested once.
fn has_joins(masks: &[u16]) -> bool
    requires { is_ordered masks.now ≡ true }
    ensures { result ≡ is_joined masks.now }
{
    (0..masks.len()).all(|a| has_joins_before(masks, a))
}

// Whether all levels dominate level `l`.
fn is_lowest(masks: &[u16], l: usize) -> bool
    ensures { result ≡ is_lowest (length masks.now) (dominates masks.now) l }
{
    (0..masks.len()).all(|i| dominates(masks, i, l))
}

// Question 17, of a table that passed questions 4 and 5: where there is a level, each pair has a greatest lower
// bound exactly where some level is dominated by all.
fn has_meets(masks: &[u16]) -> bool
    requires { (is_ordered masks.now ≡ true) × (is_joined masks.now ≡ true) }
    ensures { result ≡ is_met masks.now }
{
    let n = masks.len();
    n == 0 || (0..n).any(|l| is_lowest(masks, l))
}

// What questions 4, 5 and 17, in this order, say of a table, of any length and content.
#[tactic(auto, unfolding(dominance::specs::Table::verdict_of))]
pub fn check(masks: &[u16]) -> Result<(), Fault>
    ensures { result ≡ verdict_of masks.now }
{
    if !is_ordered(masks) {
        return Err(Fault::NotOrdered);
    }
    if !has_joins(masks) {
        return Err(Fault::NoJoin);
    }
    if has_meets(masks) {
        Ok(())
    } else {
        Err(Fault::NoMeet)
    }
}
