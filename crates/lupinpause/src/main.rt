// The program of document 01: reads a session from standard input, runs it plainly for a reader cleared to
// the root's level, and prints the result records or the refusal.
#![tactic(auto)]

ghost use Rattle.std.specs.Prelude.{◌*◌, ◌≤◌, ◌<◌, length};
ghost use Rattle.session.specs.Limits.{record_bytes, max_records};
ghost use Rattle.session.specs.Meaning.{level_of, root_object};
ghost use Rattle.model.specs.Limits.{result_bytes};
ghost use Rattle.text.specs.Lines.{text_size};
ghost use Rattle.lupinpause.specs.Program.{Prints, Taken, Within};

use lines::LINE_BYTES;
use model::{RESULT_BYTES, WORK_NUMBERS};
use session::limits::{MAX_RECORDS, RECORD_BYTES};
use std::io;
use std::io::{ErrorKind, Read};

// The bytes of the longest session.
const SESSION_BYTES: usize = RECORD_BYTES * MAX_RECORDS;

// The characters of the lines of a full result buffer.
const TEXT_BYTES: usize = LINE_BYTES * (RESULT_BYTES / RECORD_BYTES);

// How many interrupted reads are tried again. A bound, so that reading ends.
const INTERRUPTIONS: usize = 1000;

// Reads an input to its end, or until the buffer is full, which is longer than any session: then question 1
// says no of what was read. A read may give less than it is asked for, and one that a signal interrupts is tried
// again. Returns how many bytes stand at the buffer's start, or why a read failed.
fn read_input<R: Read>(input: &mut R, buffer: &mut [u8]) -> io::Result<usize>
    requires { record_bytes * max_records < length buffer.old }
    ensures within { Within result buffer.new }
    ensures taken { Taken (R.remaining input.old) (R.remaining input.new) result buffer.new }
{
    let mut done = 0;
    let mut interruptions = INTERRUPTIONS;
    while done < buffer.len() {
        match input.read(&mut buffer[done..]) {
            // No bytes and no failure: the input's end.
            Ok(0) => return Ok(done),
            Ok(more) => done += more,
            Err(error) => {
                if interruptions == 0 || error.kind() != ErrorKind::Interrupted {
                    return Err(error);
                }
                interruptions -= 1;
            }
        }
    }
    Ok(done)
}

// Runs a session, writes what is printed of it to the text's start, and returns how many bytes that is.
fn answer(session: &[u8], work: &mut [u32], res: &mut [u8], text: &mut [u8]) -> usize
    requires { (length res.old ≤ result_bytes) × (text_size ≤ length text.old) }
    ensures { Prints (record { session = session.now; clearance = level_of session.now (root_object session.now); work = work.old; buffer = res.old }) work.new res.new text.old text.new result }
{
    match scheduler::run_for_root(session, work, res) {
        Ok(count) => lines::put_records(text, &res[..count as usize]),
        Err(refusal) => {
            let number = opening::number_of(refusal);
            let place = opening::place_of(refusal);
            lines::put_refusal(text, number, place)
        }
    }
}

// An error of input or output is told on standard error, where that takes it, and ends the program as any other end.
fn main(rt: HostRuntime) {
    // One byte more than the longest session, so that a longer input is refused for its length.
    let mut session = [0u8; SESSION_BYTES + 1];
    let length = match read_input(&mut rt.stdin(), &mut session) {
        Ok(length) => length,
        Err(error) => {
            eprintln!(rt; "standard input: {error}").ok();
            return;
        }
    };
    let mut work = [0u32; WORK_NUMBERS];
    let mut result = [0u8; RESULT_BYTES];
    let mut text = [0u8; TEXT_BYTES];
    let count = answer(&session[..length], &mut work, &mut result, &mut text);
    if let Err(error) = rt.stdout().write_all(&text[..count]) {
        eprintln!(rt; "standard output: {error}").ok();
    }
}

#[cfg(test)]
mod tests {
    use super::*;

    // Gives at most three bytes a read, once so many reads were interrupted. At the bytes' end it ends or fails.
    #[derive(Drop)]
    struct Hindered<'a> {
        interruptions: usize,
        bytes: &'a [u8],
        ends: bool,
    }

    impl Read for Hindered<'_> {
        fn read(&mut self, buf: &mut [u8]) -> io::Result<usize> {
            if self.interruptions > 0 {
                self.interruptions -= 1;
                return Err(io::Error::from(ErrorKind::Interrupted));
            }
            if self.bytes.is_empty() && !self.ends {
                return Err(io::Error::from(ErrorKind::TimedOut));
            }
            let most = buf.len().min(3);
            self.bytes.read(&mut buf[..most])
        }
    }

    #[test]
    fn reads_are_tried_again(rt: HostRuntime) {
        for (interruptions, ends, want) in [
            (0, true, Some(7)),
            (1000, true, Some(7)),
            (1001, true, None),
            (2, false, None),
        ] {
            let mut input = Hindered {
                interruptions,
                bytes: b"session",
                ends,
            };
            let mut buffer = [0u8; SESSION_BYTES + 1];
            let read = read_input(&mut input, &mut buffer).ok();
            assert_eq!(rt; read, want, "after {interruptions} interruptions");
            assert!(rt; read.is_none() || buffer.starts_with(b"session"));
        }
    }
}
