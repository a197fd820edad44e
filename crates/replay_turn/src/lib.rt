// One turn of the reading of a table file for a replay: gathers what stands in the input buffer, puts what is to be said
// of its records, and says what comes next. Gathering is `replay_gathering`'s, the text `replay_text`'s, the buffer's
// bytes `intake`'s; to read and to write is the program's.
#![tactic(auto)]

ghost use Rattle.std.specs.Prelude.{◌≡◌, ◌<◌};
ghost use Rattle.text.specs.Numeral.{most};
ghost use Rattle.replay_turn.specs.Turns.{at_edge, next_of, unread_note, note_of, whole_by, countable, is_ready, begun_reading, turn_made};

use bridge::Bridge;
use intake::{Held, Next, Told, Turned};
use quantity::Refusal;
use replay_gathering::End;
use replay_text::Note;

// Where the reading stands.
#[derive(Clone, Copy)]
pub struct Standing {
    pub bridge: Bridge,
    // The records so far, and their bytes.
    pub records: u64,
    pub bytes: u64,
    // How many places of the lists are taken.
    pub count: usize,
    // The file has ended after a whole record, and all of it was taken. A flag: `HasGathered` and `whole_by` speak of it.
    pub whole: bool,
    // What of the input stands in the buffer and is still to be gathered.
    pub held: Held,
}

// Nothing was read yet.
#[tactic(auto, unfolding(crate::specs::Turns::begun_reading))]
pub fn begin() -> Standing
    ensures { result ≡ begun_reading }
{
    Standing {
        bridge: bridge::fresh(),
        records: 0,
        bytes: 0,
        count: 0,
        whole: false,
        held: Held::nothing(),
    }
}

// ---- what comes next

// Where the bytes that are held end before a whole record.
#[tactic(auto, unfolding(crate::specs::Turns::at_edge))]
fn edge_next(told: Told) -> Next
    ensures { result ≡ at_edge told }
{
    match told {
        Told::More => Next::Reads,
        Told::Ended => Next::Ends,
        Told::Failed => Next::Fails,
    }
}

// By why the gathering ended.
#[tactic(auto, unfolding(crate::specs::Turns::next_of))]
fn next_of(why: End, told: Told) -> Next
    ensures { result ≡ next_of why told }
{
    match why {
        End::NothingLeft => edge_next(told),
        End::Unreadable(Refusal::CutShort) => edge_next(told),
        End::Unreadable(_) => Next::Ends,
        End::NotSetUp(_) => Next::GoesOn,
        End::ListsFull => Next::Ends,
    }
}

// ---- what is said of it

// The record after so many is said to be unreadable where the reading ends.
#[tactic(auto, unfolding(crate::specs::Turns::unread_note))]
fn unread_note(next: Next, records: u64, bytes: u64, number: u8) -> Option<Note>
    requires { records < most }
    ensures { result ≡ unread_note next records bytes number }
{
    match next {
        Next::Ends => Some(Note::Unreadable {
            record: records + 1,
            offset: bytes,
            number,
        }),
        Next::GoesOn | Next::Reads | Next::Fails => None,
    }
}

// Of the record at the place where a gathering ended, after so many records and bytes, or of the set-up before it.
#[tactic(auto, unfolding(crate::specs::Turns::note_of))]
fn note_of(why: End, next: Next, records: u64, bytes: u64) -> Option<Note>
    requires { records < most }
    ensures { result ≡ note_of why next records bytes }
{
    match why {
        End::NothingLeft => None,
        End::Unreadable(refusal) => {
            unread_note(next, records, bytes, quantity::refusal_number(refusal))
        }
        End::NotSetUp(refusal) => Some(Note::NotSetUp {
            record: records,
            number: quantity::refusal_number(refusal),
        }),
        End::ListsFull => Some(Note::TooManyFrames),
    }
}

// ---- whether the whole file was taken

// It ended after a whole record.
#[tactic(auto, unfolding(crate::specs::Turns::is_end, crate::specs::Turns::whole_by))]
fn is_whole(why: End, next: Next) -> bool
    ensures { result ≡ whole_by why next }
{
    matches!(why, End::NothingLeft) && matches!(next, Next::Ends)
}

// ---- the turn

// So many bytes more can be counted, and a record after those that they may hold.
#[tactic(auto, unfolding(crate::specs::Turns::countable))]
fn can_count(records: u64, bytes: u64, n: u64) -> bool
    ensures { result ≡ countable records bytes n }
{
    records < u64::MAX - n && bytes <= u64::MAX - n
}

// What is held is in a buffer of so many bytes and can be counted, and a longest line has room for the notes.
#[tactic(auto, unfolding(crate::specs::Turns::is_ready, crate::specs::Turns::buffers_fit))]
fn is_ready(held: Held, records: u64, bytes: u64, size: usize, room: usize) -> bool
    ensures { result ≡ is_ready held records bytes size room }
{
    if !held.is_within(size) {
        return false;
    }
    let n = held.filled - held.place;
    room >= replay_text::LINE_ROOM && can_count(records, bytes, n as u64)
}

// Makes one turn. Where it cannot be made, nothing changes and it fails. The lists are lent one by one, as to
// `replay_gathering::gather_part`.
pub fn turn(
    input: &mut [u8],
    notes: &mut [u8],
    arrivals: &mut [u64],
    ids: &mut [u8],
    octets: &mut [u16],
    standing: Standing,
) -> Turned<Standing>
    ensures { record { turned = result; input = input.new; notes = notes.new; arrivals = arrivals.new; ids = ids.new; octets = octets.new }
        ≡ turn_made standing input.old notes.old arrivals.old ids.old octets.old }
{
    let held = standing.held;
    if !is_ready(
        held,
        standing.records,
        standing.bytes,
        input.len(),
        notes.len(),
    ) {
        return Turned {
            standing,
            written: 0,
            next: Next::Fails,
        };
    }
    let part = replay_gathering::gather_part(
        &input[held.place..held.filled],
        standing.bridge,
        arrivals,
        ids,
        octets,
        standing.count,
    );
    let why = part.why;
    let records = standing.records + part.records as u64;
    let bytes = standing.bytes + part.at as u64;
    let next = next_of(why, held.told);
    let note = note_of(why, next, records, bytes);
    let written = replay_text::put_note(notes, 0, note);
    let left = Held {
        place: held.place + part.at,
        ..held
    };
    Turned {
        standing: Standing {
            bridge: part.bridge,
            records,
            bytes,
            count: part.count,
            whole: is_whole(why, next),
            held: left.keep_for(input, next),
        },
        written,
        next,
    }
}
