// What a call of an entry answers, for every input: definitions and computed cases. Of code there are only the types of what the
// entries answer.
#![tactic(auto)]

use session::Question;

// Why an entry refuses a call: the first question that says no. The place of one of a timetable's steps is its byte.
#[derive(Clone, Copy, Debug, PartialEq, Eq)]
pub enum Refusal {
    // Questions 1 to 8 and 17, those that Check uses: of the session.
    Session(Question),
    // Question 9: the clearance is no present level.
    Clearance,
    // Question 10: the work slice has too few numbers.
    ShortWork,
    // Question 11: the result buffer has too few bytes.
    ShortResult,
    // Question 12: the level that a step names is not present.
    Absent { place: u32 },
    // Question 13: it has no manager that hasn't ended.
    Idle { place: u32 },
    // Question 14: one holds back the manager about to step.
    Blocked { place: u32 },
    // Question 15: at the timetable's end some manager has not ended.
    Unended,
    // Question 16: the page buffer has too few bytes.
    ShortPage,
}

// What the page entry answers of a call that finishes: the count of result bytes written, and that of the page.
#[derive(Clone, Copy, Debug, PartialEq, Eq)]
pub struct PageCounts {
    pub count: u32,
    pub page_count: u32,
}
