// The histories of a run: ROW_WORDS words for each, MAX_MANAGERS of them for each level, in stamp order.
#![tactic(auto)]

pub mod limits;
pub mod places;

ghost use Rattle.std.specs.Prelude.{◌≡◌};
ghost use Rattle.scripts.specs.Ending.{number_of_ending};
ghost use Rattle.model.specs.History.{end_before};
ghost use Rattle.histories.specs.Histories.{row_of, histories_at, HistoryRoom, Added, HistoriesThere};

use crate::limits::ROW_WORDS;
use fields::values;
use model::MAX_MANAGERS;
use scripts::{Ended, Ending};

// Document 01's number of an ending.
fn number_of_ending(ending: Ending) -> u32
    ensures { result ≡ number_of_ending ending }
{
    match ending {
        Ending::Running | Ending::Finished => 0,
        Ending::OutOfSteps => 1,
        Ending::OutOfWrites => 2,
    }
}

// The words of the history of a manager that has ended.
fn row_of(ended: Ended) -> [u32; ROW_WORDS]
    ensures { result ≡ row_of ended }
{
    let ending = ended.ending;
    let reply = ended.reply;
    let mut row = [0u32; ROW_WORDS];
    row[places::STAMP] = ended.stamp;
    row[places::ENDING] = number_of_ending(ending);
    row[places::WRITES] = ended.writes as u32;
    row[places::FIRST] = ended.first as u32;
    row[places::LAST] = ended.last as u32;
    row[places::STEPS] = ended.steps as u32;
    row[places::TAG] = values::tag_of(reply) as u32;
    row[places::NUMBER] = values::number_in(reply);
    row
}

// Adds the history of a manager that has ended to the `count` of its level.
pub fn add(histories: &mut [u32], level: usize, count: usize, ended: Ended)
    requires { HistoryRoom histories.old level count ended }
    ensures { Added histories.old histories.new level count ended }
{
    let row = row_of(ended);
    rows::insert(
        histories,
        places::place_of(level, 0),
        count,
        MAX_MANAGERS,
        &row,
    );
}

// Of the `count` histories of a level, the end stamp of the one with the largest fork stamp smaller than
// this one, or 0 where none is smaller. Stamps are whole numbers: smaller than it are those up to one less.
pub fn end_before(histories: &[u32], level: usize, count: usize, stamp: u32) -> u32
    requires { HistoriesThere histories.now level count }
    ensures { result ≡ end_before stamp (histories_at histories.now level count) }
{
    let Some(largest) = stamp.checked_sub(1) else {
        return 0;
    };
    let start = places::place_of(level, 0);
    let smaller = rows::place(histories, start, ROW_WORDS, count, largest);
    let Some(last) = smaller.checked_sub(1) else {
        return 0;
    };
    histories[places::place_of(level, last) + places::LAST]
}
