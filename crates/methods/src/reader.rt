// Reads the records of a session in their order. "A record is 16 bytes at 16 times its number".
//
// A reader holds the lent bytes and the number of a record. Each function over it is thin: `record::key_at` does
// the work. No function here can change a byte. `falls_after` has plain parameters, so its callers know nothing of
// the reader.
ghost use Rattle.std.specs.Prelude.{◌≡◌, ◌+◌, ◌≤◌, ◌<◌, ltb};
ghost use Rattle.session.specs.Record.{record_at, record_count};
ghost use Rattle.session.specs.Parts.{key_of};

use session_records::record;

// The session's bytes, as they were lent, and the number of the record that is read.
#[derive(Clone, Copy)]
pub struct Reader<'a> {
    pub session: &'a [u8],
    pub at: usize,
}

// A reader of record `at`.
pub fn reader_at<'a>(session: &'a [u8], at: usize) -> Reader<'a>
    ensures { (result.session ≡ session.entry) × (result.at ≡ at) }
{
    Reader { session, at }
}

impl<'a> Reader<'a> {
    // The pair (object, name) of the step in its record, as one number.
    pub fn key(self) -> usize
        requires { self.at < record_count self.session.now }
        ensures { result ≡ key_of (record_at self.entry.session.now self.entry.at) }
    {
        record::key_at(self.session, self.at)
    }

    // A reader of the same session, `n` records further on and no further than its end.
    pub fn skip(self, n: usize) -> Reader<'a>
        requires { self.at + n ≤ record_count self.session.now }
        ensures { (result.session ≡ self.entry.session) × (result.at ≡ self.entry.at + n) }
    {
        Reader {
            session: self.session,
            at: self.at + n,
        }
    }
}

// Whether the step in the record `n` after record `at` has a smaller (object, name) than the one in
// record `at`.
pub fn falls_after(session: &[u8], at: usize, n: usize) -> bool
    requires { at + n < record_count session.now }
    ensures { result ≡ ltb (key_of (record_at session.now (at + n))) (key_of (record_at session.now at)) }
{
    let here = reader_at(session, at);
    let later = here.skip(n);
    later.key() < here.key()
}
