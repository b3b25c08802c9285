// The message filter of RADC-TR-90-91, as document 01 fixes it: what becomes of a message from one
// object to another.
#![tactic(auto)]

ghost use Rattle.std.specs.Prelude.{◌≡◌, true, length};
ghost use Rattle.dominance.specs.Table.{dominates, is_ordered};
ghost use Rattle.fates.specs.Filter.{fate_of};

use fates::Fate;

// What becomes of a message that a manager at level `manager` sends, from an object at level `sender`
// to one at level `receiver`. Of a table that passed question 4, as `lattice::join` asks.
pub fn fate_of(masks: &[u16], manager: usize, sender: usize, receiver: usize) -> Fate
    requires { is_ordered masks.now ≡ true }
    ensures { result ≡ fate_of (length masks.now) (dominates masks.now) manager sender receiver }
{
    if lattice::dominates(masks, sender, receiver) {
        return Fate::Call;
    }
    if !lattice::dominates(masks, receiver, sender) {
        return Fate::Block;
    }
    // A manager at the sender's level: the receiver's is above it, and so it is their join.
    if manager == sender {
        return Fate::Fork(receiver);
    }
    let bound = lattice::join(masks, manager, receiver);
    if bound == manager {
        Fate::Discard
    } else {
        Fate::Fork(bound)
    }
}
