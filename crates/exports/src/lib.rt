// The entries as functions for programs in other languages: numbers, and slices as a pointer and a length.
//
// Each run returns the number of document 01's answer. Its place and count are written to the front of
// `place_and_count`, or nothing where that has no room for the two; the page entry tells three numbers so.
#![tactic(auto)]

ghost use Rattle.std.specs.Prelude.{◌≡◌, []};
ghost use Rattle.session.specs.Questions.{verdict_of, answer_of};
ghost use Rattle.calls.specs.Entries.{timetabled, plain, deep};
ghost use Rattle.calls.specs.Page.{counts_told, paged};
ghost use Rattle.calls.specs.Refusals.{number_told, place_told, count_told};
ghost use Rattle.exports.specs.Calls.{reported, Call, reported_page, PageCall};

use calls::{PageCounts, Refusal};

// Where place and count stand in `place_and_count`, and how many numbers they are; and with the count of page bytes
// behind them.
const PLACE: usize = 0;

const COUNT: usize = 1;

const NUMBERS: usize = 2;

const PAGE_COUNT: usize = 2;

const PAGE_NUMBERS: usize = 3;

// The counts of a refusal.
const NO_COUNTS: PageCounts = PageCounts {
    count: 0,
    page_count: 0,
};

// The number and the place that an answer is told by: 0 and 0 where all questions say yes.
fn told<T: Copy>(answer: &Result<T, Refusal>) -> (u32, u32)
    ensures { result ≡ (number_told answer.now, place_told answer.now) }
{
    match answer {
        Ok(_) => (0, 0),
        Err(refusal) => (opening::number_of(*refusal), opening::place_of(*refusal)),
    }
}

// Reports an answer: its place and count to the front of `place_and_count`, its number as the result.
fn report(place_and_count: &mut [u32], answer: Result<u32, Refusal>) -> u32
    ensures { (result ≡ number_told answer) × (place_and_count.new ≡ reported (place_told answer) (count_told answer) place_and_count.old) }
{
    let (number, place) = told(&answer);
    let count = answer.unwrap_or(0);
    if place_and_count.len() >= NUMBERS {
        place_and_count[PLACE] = place;
        place_and_count[COUNT] = count;
    }
    number
}

// Reports an answer of the page entry: its place and both counts to the front of `place_and_counts`.
fn report_page(place_and_counts: &mut [u32], answer: Result<PageCounts, Refusal>) -> u32
    ensures { (result ≡ number_told answer) × (place_and_counts.new ≡ reported_page (place_told answer) (counts_told answer).count (counts_told answer).page_count place_and_counts.old) }
{
    let (number, place) = told(&answer);
    let counts = answer.unwrap_or(NO_COUNTS);
    if place_and_counts.len() >= PAGE_NUMBERS {
        place_and_counts[PLACE] = place;
        place_and_counts[COUNT] = counts.count;
        place_and_counts[PAGE_COUNT] = counts.page_count;
    }
    number
}

// Check: the number of document 01's answer; its place is 0.
#[unsafe(no_mangle)]
pub extern "C" fn lupinpause_check(session: &[u8]) -> u32
    ensures { result ≡ (answer_of (verdict_of session.now)).number }
{
    checks::number_of(checks::check(session))
}

// The timetabled run. `work` has at least 8,192 numbers and `result` at least 5,136 bytes, or the run is
// refused.
#[unsafe(no_mangle)]
pub extern "C" fn lupinpause_run_timetable(
    session: &[u8],
    timetable: &[u8],
    clearance: usize,
    work: &mut [u32],
    res: &mut [u8],
    place_and_count: &mut [u32],
) -> u32
    ensures { Call (timetabled (record { session = session.now; clearance = clearance; work = work.old; buffer = res.old }) timetable.now) work.new res.new place_and_count.old place_and_count.new result }
{
    let answer = scheduler::run_timetable(session, timetable, clearance, work, res);
    report(place_and_count, answer)
}

// The plain run, with the same buffers.
#[unsafe(no_mangle)]
pub extern "C" fn lupinpause_run_plain(
    session: &[u8],
    clearance: usize,
    work: &mut [u32],
    res: &mut [u8],
    place_and_count: &mut [u32],
) -> u32
    ensures { Call (plain (record { session = session.now; clearance = clearance; work = work.old; buffer = res.old })) work.new res.new place_and_count.old place_and_count.new result }
{
    let answer = scheduler::run_plain(session, clearance, work, res);
    report(place_and_count, answer)
}

// The depth-first run, which has no work slice.
#[unsafe(no_mangle)]
pub extern "C" fn lupinpause_run_depth_first(
    session: &[u8],
    clearance: usize,
    res: &mut [u8],
    place_and_count: &mut [u32],
) -> u32
    ensures { Call (deep (record { session = session.now; clearance = clearance; work = []; buffer = res.old })) [] res.new place_and_count.old place_and_count.new result }
{
    let answer = depth_first::run_depth_first(session, clearance, res);
    report(place_and_count, answer)
}

// The depth-first run with a page of its histories. `page` has at least 7,420 bytes, or the run is refused.
#[unsafe(no_mangle)]
pub extern "C" fn lupinpause_run_page(
    session: &[u8],
    clearance: usize,
    res: &mut [u8],
    page: &mut [u8],
    place_and_counts: &mut [u32],
) -> u32
    ensures { PageCall (paged (record { session = session.now; clearance = clearance; work = []; buffer = res.old }) page.old) res.new page.new place_and_counts.old place_and_counts.new result }
{
    let answer = page::run_page(session, clearance, res, page);
    report_page(place_and_counts, answer)
}
