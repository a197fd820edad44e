// The account of a run: the lines that a replay prints, and what it says of the records that it reads, put into lent
// bytes. Decimal numbers are `text`'s; the run that the lines tell of is `line`'s. Input and output live with the
// programs.
// Bytes and place go one by one, and what is put is no `Display`: see `text`. The numbers of a line and of a note are
// document 01's, as the lists of a run and a whole file's reading (`ended_at`) have them.
#![tactic(auto)]

ghost use Rattle.std.specs.Prelude.{◌≡◌, [], ◌∷◌};
ghost use Rattle.text.specs.Decimal.{decimal};
ghost use Rattle.text.specs.Places.{placed};
ghost use Rattle.replay_text.specs.Lines.{line_end, pair, stop, line_put};
ghost use Rattle.replay_text.specs.Notes.{refused_set_up, unreadable, note_put};
ghost use Rattle.text.specs.Puts.{puts};

use quantity::Ticks;

// The longest line: a stop's, with as many digits as its numbers can have.
pub const LINE_ROOM: usize = 116;

// A line of the account.
#[derive(Clone, Copy)]
pub enum Line {
    // `PLACE NUMBER`: the answer to the frame at a place of the lists.
    Answer {
        place: u64,
        number: u8,
    },
    // `pick HANDLE MOMENT`: a frame is picked at a moment.
    Pick {
        handle: u32,
        moment: Ticks,
    },
    // `refused NUMBER`: the run itself is refused.
    Refused(u8),
    // `stop NUMBER next PLACE free MOMENT events COUNT picks COUNT`: how the run stopped.
    Stop {
        number: u8,
        next: u64,
        free: Ticks,
        events: u64,
        picks: u64,
    },
}

// A line that a replay says of a record on standard error.
#[derive(Clone, Copy)]
pub enum Note {
    // `record N: set-up refused, NUMBER`
    NotSetUp {
        record: u64,
        number: u8,
    },
    // `failed: record N at byte OFFSET: unreadable, NUMBER`
    Unreadable {
        record: u64,
        offset: u64,
        number: u8,
    },
    // `failed: more than 65536 FR records`
    TooManyFrames,
}

// A word, a number after it, and the line's end.
fn put_last(out: &mut [u8], at: usize, word: &[u8], n: u64) -> usize
    ensures { record { next = result; bytes = out.new } ≡ puts out.old at (word.now ∷ decimal n ∷ line_end ∷ []) }
{
    let after = text::put_field(out, at, word, n);
    text::put_text(out, after, b"\n")
}

// Two numbers and the line's end.
fn put_pair(out: &mut [u8], at: usize, a: u64, b: u64) -> usize
    ensures { record { next = result; bytes = out.new } ≡ puts out.old at (pair a b) }
{
    let after_a = text::put_decimal(out, at, a);
    let after_space = text::put_text(out, after_a, b" ");
    let after_b = text::put_decimal(out, after_space, b);
    text::put_text(out, after_b, b"\n")
}

// The five numbers of a stop, each after its word, and the line's end.
fn put_stop(
    out: &mut [u8],
    at: usize,
    number: u64,
    next: u64,
    free: u64,
    events: u64,
    picks: u64,
) -> usize
    ensures { record { next = result; bytes = out.new } ≡ puts out.old at (stop number next free events picks) }
{
    let after_number = text::put_field(out, at, b"stop ", number);
    let after_next = text::put_field(out, after_number, b" next ", next);
    let after_free = text::put_field(out, after_next, b" free ", free);
    let after_events = text::put_field(out, after_free, b" events ", events);
    put_last(out, after_events, b" picks ", picks)
}

// Puts a line at a place, where the longest line would have room.
pub fn put_line(out: &mut [u8], at: usize, line: Line) -> usize
    ensures { record { next = result; bytes = out.new } ≡ line_put out.old at line }
{
    if !text::has_room(out.len(), at, LINE_ROOM) {
        return at;
    }
    match line {
        Line::Answer { place, number } => put_pair(out, at, place, number as u64),
        Line::Pick { handle, moment } => {
            let after = text::put_text(out, at, b"pick ");
            put_pair(out, after, handle as u64, moment.0)
        }
        Line::Refused(number) => put_last(out, at, b"refused ", number as u64),
        Line::Stop {
            number,
            next,
            free,
            events,
            picks,
        } => put_stop(out, at, number as u64, next, free.0, events, picks),
    }
}

// ---- notes

// A record's number, and the number that refused its set-up.
fn put_refused_set_up(out: &mut [u8], at: usize, n: u64, number: u64) -> usize
    ensures { record { next = result; bytes = out.new } ≡ puts out.old at (refused_set_up n number) }
{
    let after = text::put_field(out, at, b"record ", n);
    put_last(out, after, b": set-up refused, ", number)
}

// A record's number, the offset of its first byte, and the number that the reader gave there.
fn put_unreadable(out: &mut [u8], at: usize, n: u64, offset: u64, number: u64) -> usize
    ensures { record { next = result; bytes = out.new } ≡ puts out.old at (unreadable n offset number) }
{
    let after_record = text::put_field(out, at, b"failed: record ", n);
    let after_offset = text::put_field(out, after_record, b" at byte ", offset);
    put_last(out, after_offset, b": unreadable, ", number)
}

// Puts a note, if there is one, at a place, where the longest line would have room.
pub fn put_note(out: &mut [u8], at: usize, note: Option<Note>) -> usize
    ensures { record { next = result; bytes = out.new } ≡ note_put out.old at note }
{
    if !text::has_room(out.len(), at, LINE_ROOM) {
        return at;
    }
    let Some(note) = note else {
        return at;
    };
    match note {
        Note::NotSetUp { record, number } => put_refused_set_up(out, at, record, number as u64),
        Note::Unreadable {
            record,
            offset,
            number,
        } => put_unreadable(out, at, record, offset, number as u64),
        Note::TooManyFrames => text::put_text(out, at, b"failed: more than 65536 FR records\n"),
    }
}
