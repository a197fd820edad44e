// The programs' edge to the system: a reading of an input behind the bytes that are held, bytes written to their end, and
// the line that says which of the two failed. A call that only would have to wait, or was interrupted, is made again. What
// the system reads and writes no contract can say: what is made of its answers is fixed, and handed back with them. Of a
// reader and a writer that know their bytes it is fixed too which of them came and went. What a program reads for, and
// what it writes, is its own rooms'.
#![tactic(auto)]

ghost use Rattle.std.specs.Prelude.{◌≡◌, [], ◌∷◌, ◌≤◌, length, take, drop, replicate};
ghost use Rattle.std.specs.Io.KnownBytes.{Appends};
ghost use Rattle.text.specs.Decimal.{decimal};
ghost use Rattle.text.specs.Puts.{joined, puts};
ghost use Rattle.console.specs.Answers.{only_waits, unread_by, brought, read_behind};
ghost use Rattle.console.specs.Calls.{kind_number, error_number, numbered, further, CameFrom, WentTo, written_to, count_of, error_of, Wrote};
ghost use Rattle.console.specs.Failures.{edge_word, failure_parts};

use intake::{Held, Unread};
use std::io::{ErrorKind, Read, Write};
use std::{io, thread};

// The system's numbers, since `only_waits` judges a number: a call that a signal interrupted before it moved a byte.
const INTERRUPTED: i32 = 4;

// A call on what is not ready, and is not to be waited for.
const NOT_READY: i32 = 11;

// A buffer of a line.
const LINE_BYTES: usize = 4_096;

// A buffer for a loop that moves much.
const LARGE_BYTES: usize = 65_536;

// The system's words for an error, and its number behind them.
const WORDS_BYTES: usize = 256;

// What a reading brought: how many bytes, or the number of its error, and what is held after it.
#[derive(Clone, Copy)]
pub struct Came {
    pub got: Result<usize, i32>,
    pub held: Held,
}

// What was written of bytes that were not all written, and the number of the last call's error, which is 0 where it had
// none: the line that says so has the system's words for 0, too.
#[derive(Clone, Copy)]
pub struct Unwritten {
    pub count: usize,
    pub error: i32,
}

// Which of the two failed.
#[derive(Clone, Copy)]
pub enum Edge {
    Reading,
    Writing,
}

// What failed, after how many records and bytes.
#[derive(Clone, Copy)]
pub struct Failure {
    pub edge: Edge,
    pub records: u64,
    pub bytes: u64,
}

// ---- buffers

// Two functions, since each fixes its number: one over a const length would leave the number to each caller.

// Zeros, as many as a line has room in.
pub fn buffer() -> [u8; LINE_BYTES]
    ensures zeros { result ≡ replicate 4096 0 }
    ensures long { 4096 ≡ length result }
{
    [0; LINE_BYTES]
}

// Zeros, for a loop that moves much.
pub fn large_buffer() -> [u8; LARGE_BYTES]
    ensures zeros { result ≡ replicate 65536 0 }
    ensures long { 65536 ≡ length result }
{
    [0; LARGE_BYTES]
}

// ---- the system's answers

// Whether the call that failed so may be made again: it was interrupted, or only would have to wait.
#[tactic(auto, unfolding(crate::specs::Answers::only_waits))]
pub fn only_waits(error: i32) -> bool
    ensures { result ≡ only_waits error }
{
    matches!(error, INTERRUPTED | NOT_READY)
}

// The number of an error of this kind that the system did not number: of the two after which a call is made again.
fn number_of_kind(kind: ErrorKind) -> i32
    ensures { result ≡ kind_number kind }
{
    match kind {
        ErrorKind::Interrupted => INTERRUPTED,
        ErrorKind::WouldBlock => NOT_READY,
        _ => 0,
    }
}

// An error's number, as the system gave it.
fn number_of(error: &io::Error) -> i32
    ensures { result ≡ error_number error.now }
{
    match error.raw_os_error() {
        Some(number) => number,
        None => number_of_kind(error.kind()),
    }
}

// How many bytes a call moved, or its error's number.
fn numbered(outcome: io::Result<usize>) -> Result<usize, i32>
    ensures { result ≡ numbered outcome }
{
    match outcome {
        Ok(n) => Ok(n),
        Err(error) => Err(number_of(&error)),
    }
}

// Lets others run before a call that only would have to wait is made again.
fn stand_by(waits: bool) {
    if waits {
        thread::yield_now();
    }
}

// ---- reading

// Why a reading that failed so brought nothing.
fn unread_by(error: i32) -> Unread
    ensures { result ≡ unread_by error }
{
    let waits = only_waits(error);
    stand_by(waits);
    if waits { Unread::Waits } else { Unread::Fails }
}

// What a reading that answered so has brought.
fn brought(got: Result<usize, i32>) -> Result<usize, Unread>
    ensures { result ≡ brought got }
{
    match got {
        Ok(n) => Ok(n),
        Err(error) => Err(unread_by(error)),
    }
}

// Reads once from an input, into the places from one on. Where it is not in the buffer, that fails.
fn read_from<R: Read>(input: &mut R, bytes: &mut [u8], from: usize) -> Result<usize, i32>
    ensures kept { take from bytes.new ≡ take from bytes.old }
    ensures came { CameFrom (R.remaining input.old) (R.remaining input.new) result (drop from bytes.new) }
{
    if bytes.len() < from {
        return Err(0);
    }
    numbered(input.read(&mut bytes[from..]))
}

// Reads once from an input, behind the bytes that are held.
pub fn read_behind<R: Read>(input: &mut R, bytes: &mut [u8], held: Held) -> Came
    ensures read { record { came = result; bytes = bytes.new } ≡ read_behind held bytes.old result.got bytes.new }
    ensures came { CameFrom (R.remaining input.old) (R.remaining input.new) result.got (drop held.filled bytes.new) }
{
    let size = bytes.len();
    let got = read_from(input, bytes, held.filled);
    Came {
        got,
        held: held.after_reading(brought(got), size),
    }
}

// ---- writing

// Writes once, from a place on, and says how many bytes were taken.
fn write_from<W: Write>(out: &mut W, bytes: &[u8], at: usize) -> Result<usize, i32>
    requires { at ≤ length bytes.now }
    ensures { WentTo (W.contents out.old) (W.contents out.new) result (drop at bytes.now) }
{
    numbered(out.write(&bytes[at..]))
}

// The place after so many bytes more.
fn further(at: usize, got: Result<usize, i32>, size: usize) -> usize
    requires { at ≤ size }
    ensures within { (at ≤ result) × (result ≤ size) }
    ensures place { result ≡ further at got size }
{
    match got {
        Ok(n) => at + n.min(size - at),
        Err(_) => at,
    }
}

// Whether a writing that answered so is to be made again: it took some of the bytes, or only would have to wait.
fn goes_on(got: Result<usize, i32>) -> bool {
    match got {
        Ok(n) => n > 0,
        Err(error) => {
            let waits = only_waits(error);
            stand_by(waits);
            waits
        }
    }
}

// What a writing came to that stopped at a place.
fn written_to(at: usize, size: usize, error: i32) -> Result<(), Unwritten>
    ensures { result ≡ written_to at size error }
{
    if size <= at {
        return Ok(());
    }
    Err(Unwritten { count: at, error })
}

// Writes all of the bytes, or as many as can be, and then says how many and what the last call's error was. A proved loop
// has to end, and nothing says that a device is ever ready: it counts its tries, up to a number that no writing reaches.
pub fn write_out<W: Write>(out: &mut W, bytes: &[u8]) -> Result<(), Unwritten>
    ensures handed { result ≡ written_to (count_of (length bytes.now) result) (length bytes.now) (error_of result) }
    ensures went { Wrote (W.contents out.old) (W.contents out.new) bytes.now result }
{
    let size = bytes.len();
    let mut at: usize = 0;
    let mut error: i32 = 0;
    for tries in 0..u64::MAX {
        if at >= size {
            return written_to(at, size, error);
        }
        let got = write_from(out, bytes, at);
        error = got.err().unwrap_or(0);
        at = further(at, got, size);
        if !goes_on(got) {
            return written_to(at, size, error);
        }
    }
    written_to(at, size, error)
}

// ---- what failed

#[tactic(auto, unfolding(crate::specs::Failures::edge_word))]
fn put_edge(out: &mut [u8], failure: Failure) -> usize
    ensures { record { next = result; bytes = out.new } ≡ puts out.old 0 (edge_word failure.edge ∷ decimal failure.records ∷ []) }
{
    let edge = failure.edge;
    match edge {
        Edge::Reading => text::put_field(out, 0, b"failed: reading after ", failure.records),
        Edge::Writing => text::put_field(out, 0, b"failed: writing after ", failure.records),
    }
}

// Puts what failed at the front.
fn put_failure(out: &mut [u8], failure: Failure) -> usize
    ensures { record { next = result; bytes = out.new } ≡ puts out.old 0 (failure_parts failure) }
{
    let after_records = put_edge(out, failure);
    let after_bytes = text::put_field(out, after_records, b" records, ", failure.bytes);
    text::put_text(out, after_bytes, b" bytes")
}

// Puts the system's own words for the error of this number at the front, and then its number.
fn put_words(room: &mut [u8], error: i32) {
    let mut rest = room;
    let _ = write!(rest, "{}", io::Error::from_raw_os_error(error));
}

// Where the words end: before the number, or where nothing was put.
fn words_end(room: &[u8]) -> usize
    ensures { result ≤ length room.now }
{
    let unused = room.iter().position(|byte| *byte == 0);
    let number = room
        .windows(11)
        .position(|part| part == b" (os error ".as_slice());
    unused
        .unwrap_or(room.len())
        .min(number.unwrap_or(room.len()))
}

// A line: what failed, and the system's own words for the error of this number.
fn say_why<W: Write>(out: &mut W, what: &[u8], error: i32) {
    let mut words = [0u8; WORDS_BYTES];
    put_words(&mut words, error);
    let end = words_end(&words);
    let _ = out.write_all(what);
    let _ = out.write_all(b": ");
    let _ = out.write_all(&words[..end]);
    let _ = out.write_all(b"\n");
}

// Says what failed, on what is to be standard error, with the system's own words for the error of this number, and gives
// the length of what it said before them.
pub fn tell_failure<W: Write>(out: &mut W, failure: Failure, error: i32) -> usize
    ensures { result ≡ length (joined (failure_parts failure)) }
{
    let mut line = buffer();
    let n = put_failure(&mut line, failure);
    say_why(out, &line[..n], error);
    n
}

#[cfg(test)]
mod tests {
    use super::*;
    use std::test::Fail;

    // A reader that is interrupted, then has to wait, and then has gone.
    #[derive(Drop)]
    struct Worse {
        calls: u8,
    }

    impl Read for Worse {
        fn read(&mut self, _buf: &mut [u8]) -> io::Result<usize> {
            let number = match self.calls {
                0 => 4,
                1 => 11,
                _ => 5,
            };
            self.calls = self.calls.saturating_add(1);
            Err(io::Error::from_raw_os_error(number))
        }
    }

    // A writer that takes three bytes and then has no more room.
    #[derive(Drop)]
    struct Small {
        room: usize,
    }

    impl Write for Small {
        fn write(&mut self, buf: &[u8]) -> io::Result<usize> {
            if self.room == 0 {
                return Err(io::Error::from_raw_os_error(28));
            }
            let n = buf.len().min(self.room);
            self.room -= n;
            Ok(n)
        }

        fn flush(&mut self) -> io::Result<()> {
            Ok(())
        }
    }

    #[test]
    fn failures_are_told(rt: HostRuntime) -> Result<(), Fail> {
        let mut said = Vec::new(rt.alloc());
        let failure = Failure {
            edge: Edge::Reading,
            records: 3,
            bytes: 44,
        };
        tell_failure(&mut said, failure, 21);
        tell_failure(&mut said, failure, 0);
        let line =
            b"failed: reading after 3 records, 44 bytes: Is a directory\nfailed: reading after 3 records, 44 bytes: Success\n";
        assert_eq!(rt; said.as_slice(), line.as_slice());
        Ok(())
    }

    #[test]
    fn a_reading_that_waits_is_made_again(rt: HostRuntime) {
        let mut input = Worse { calls: 0 };
        let mut bytes = [0u8; 8];
        let interrupted = read_behind(&mut input, &mut bytes, Held::nothing());
        assert_eq!(rt; interrupted.got, Err(4));
        assert!(rt; matches!(interrupted.held.told, intake::Told::More));
        let waited = read_behind(&mut input, &mut bytes, interrupted.held);
        assert_eq!(rt; waited.got, Err(11));
        assert!(rt; matches!(waited.held.told, intake::Told::More));
        let gone = read_behind(&mut input, &mut bytes, waited.held);
        assert_eq!(rt; gone.got, Err(5));
        assert!(rt; matches!(gone.held.told, intake::Told::Failed));
    }

    #[test]
    fn a_writing_stops_where_there_is_no_room(rt: HostRuntime) {
        let mut out = Small { room: 3 };
        let wrote = write_out(&mut out, b"abcdef");
        assert_eq!(rt;
            wrote.map_err(|part| (part.count, part.error)),
            Err((3, 28))
        );
    }
}
