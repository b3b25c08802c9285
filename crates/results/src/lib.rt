// The result of a run: the records that a clearance is shown, written to a buffer.
#![tactic(auto)]

mod shown;

ghost use Rattle.results.specs.Writing.{result_in, bytes_in, Ready};
ghost use Rattle.lists.specs.Placed.{Written};

use contents::Session;
use shown::Outcome;
use tallies::Tallies;

// Writes the records of a run that a clearance is shown to the buffer's start, the level groups by rising
// number, and returns how many bytes they are.
pub fn write(
    session: &Session,
    fields: &[u32],
    histories: &[u32],
    counts: &Tallies,
    clearance: usize,
    root_level: usize,
    res: &mut [u8],
) -> usize
    requires { Ready session.now.bytes.now session.now.masks.now fields.now histories.now counts.now root_level res.old }
    ensures { Written (bytes_in session.now.bytes.now (result_in fields.now histories.now counts.now) clearance root_level) res.old res.new result }
{
    let outcome = Outcome {
        session: *session,
        fields,
        histories,
        counts,
        clearance,
    };
    let levels = outcome.write_objects(res);
    let reply = levels + outcome.write_levels(&mut res[levels..]);
    reply + outcome.write_reply(root_level, &mut res[reply..])
}
