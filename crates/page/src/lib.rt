// The printed page of a run: a depth-first run, its result records, and a text that lays out the histories shown.
#![tactic(auto)]

ghost use Rattle.std.specs.Prelude.{[]};
ghost use Rattle.calls.specs.Page.{paged, PageAnswers};

use calls::{PageCounts, Refusal};
use model::PAGE_BYTES;
use session::limits::MAX_LEVELS;

// Runs a session depth first, writes what a clearance is shown of it and the page of that, and returns how many bytes
// each is: Check's questions, 9, 11 and 16 of any bytes, of any length and content, and then the run.
pub fn run_page(
    session: &[u8],
    clearance: usize,
    res: &mut [u8],
    page: &mut [u8],
) -> Result<PageCounts, Refusal>
    ensures { PageAnswers (paged (record { session = session.entry.now; clearance = clearance; work = []; buffer = res.old }) page.old) result res.new page.new }
{
    let mut masks = [0u16; MAX_LEVELS];
    let levels = opening::open(session, &mut masks)?;
    opening::lent_refusal(levels, clearance, true, res.len())?;
    if page.len() < PAGE_BYTES {
        return Err(Refusal::ShortPage);
    }
    let count = depth_first::run(session, &masks[..levels], clearance, res);
    let characters = layout::write_page(page, &res[..count]);
    Ok(PageCounts {
        count: count as u32,
        page_count: characters as u32,
    })
}
