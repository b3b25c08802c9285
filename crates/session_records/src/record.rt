// One record of a session: its bytes, its words, its (object, name), the test that unused bytes are 0,
// and its step.
ghost use Rattle.std.specs.Prelude.{ℕ, ◌≡◌, ◌+◌, ◌≤◌, ◌<◌, get_or};
ghost use Rattle.session.specs.Limits.{record_bytes};
ghost use Rattle.session.specs.Record.{record_at, record_count, records_of, byte_of, word_of, step_of};
ghost use Rattle.session_records.specs.Words.{long_bytes, long_of, SaysUnused};
ghost use Rattle.session.specs.Parts.{key_of};

use crate::places;
use session::Step;
use session::limits::RECORD_BYTES;

// "Operations: 1 SET .. 7 QUIT", and document 02's 8 CREATE and 9 WITHDRAW.
const SET: u8 = 1;

const ADD: u8 = 2;

const JUMP: u8 = 3;

const READ: u8 = 4;

const WRITE: u8 = 5;

const SEND: u8 = 6;

const QUIT: u8 = 7;

const CREATE: u8 = 8;

const WITHDRAW: u8 = 9;

// What a step's object is worth in the number that stands for (object, name).
pub const KEY_OBJECT: usize = 1 << 8;

// The records of a session, in their order. Bytes that are left over belong to none.
#[tactic(auto, using(crate::proofs::Laws::Kinds::chunks_are))]
pub fn records(session: &[u8]) -> &[[u8; RECORD_BYTES]]
    ensures { result.now ≡ records_of session.now }
{
    session.as_chunks().0
}

// Byte `k` of record `r`.
#[tactic(auto, using(session::proofs::Laws::Record::byte_is))]
pub fn byte_at(session: &[u8], r: usize, k: usize) -> u8
    requires { (r < record_count session.now) × (k < record_bytes) }
    ensures { result ≡ byte_of (record_at session.now r) k }
{
    session[RECORD_BYTES * r + k]
}

// The pair (object, name) of the step in record `r`, as one number.
pub fn key_at(session: &[u8], r: usize) -> usize
    requires { r < record_count session.now }
    ensures { result ≡ key_of (record_at session.now r) }
{
    let object = byte_at(session, r, places::OBJECT) as usize;
    let name = byte_at(session, r, places::NAME) as usize;
    KEY_OBJECT * object + name
}

// So many bytes of record `r`, from `k` on.
fn bytes_at<const N: usize>(session: &[u8], r: usize, k: usize) -> [u8; N]
    requires { (r < record_count session.now) × (k + N ≤ record_bytes) }
    ensures { (i : ℕ) → i < N → get_or result i 0 ≡ byte_of (record_at session.now r) (k + i) }
{
    let at = RECORD_BYTES * r + k;
    session[at..at + N].try_into().unwrap()
}

// The 32-bit number in the bytes from `k` on of record `r`. "Numbers are little-endian".
#[tactic(auto, using(crate::proofs::Laws::Words::word_read))]
pub fn word_at(session: &[u8], r: usize, k: usize) -> u32
    requires { (r < record_count session.now) × (k + 4 ≤ record_bytes) }
    ensures { result ≡ word_of (record_at session.now r) k }
{
    u32::from_le_bytes(bytes_at(session, r, k))
}

// The 64-bit word in the bytes from `k` on of record `r`.
#[tactic(auto, using(crate::proofs::Laws::Words::long_read))]
fn long_at(session: &[u8], r: usize, k: usize) -> u64
    requires { (r < record_count session.now) × (k + long_bytes ≤ record_bytes) }
    ensures { result ≡ long_of (record_at session.now r) k }
{
    u64::from_le_bytes(bytes_at(session, r, k))
}

// Whether the chosen bytes of record `r` are 0. The choice is given as masks of its two 64-bit words: each
// chosen byte of a mask is all ones, and each other byte 0.
pub fn are_unused(session: &[u8], r: usize, first: u64, second: u64) -> bool
    requires { r < record_count session.now }
    ensures { SaysUnused (record_at session.now r) first second result }
{
    long_at(session, r, places::FIRST_LONG) & first == 0
        && long_at(session, r, places::SECOND_LONG) & second == 0
}

// The script step that record `r` is.
#[tactic(auto, unfolding(session::specs::Record::step_of))]
pub fn step_in(session: &[u8], r: usize) -> Step
    requires { r < record_count session.now }
    ensures { result ≡ step_of (record_at session.now r) }
{
    let a = byte_at(session, r, places::OPERAND_A);
    let b = byte_at(session, r, places::OPERAND_B);
    let op = byte_at(session, r, places::OPERATION);
    match op {
        SET => Step::Set {
            a,
            n: word_at(session, r, places::OPERAND_N),
        },
        ADD => Step::Add { a, b },
        JUMP => Step::Jump { a, b },
        READ => Step::Read { a, b },
        WRITE => Step::Write { a, b },
        SEND => Step::Send {
            a,
            b,
            c: byte_at(session, r, places::OPERAND_C),
        },
        QUIT => Step::Quit { a },
        CREATE => Step::Create { a },
        WITHDRAW => Step::Withdraw,
        _ => Step::End,
    }
}
