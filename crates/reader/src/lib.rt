// The reader of one record of the table file.
// The records, their marks and their sizes are `tablefile`'s. Input lives with the programs.
#![tactic(auto)]

ghost use Rattle.std.specs.Prelude.{◌≡◌, ◌+◌, ◌≤◌, length, take, drop, get_or};
ghost use Rattle.tablefile.specs.Layout.{GR, GD, ST, FR, mark_width};
ghost use Rattle.reader.specs.Reader.{is_mark, read_fields, read_at};

use quantity::{Rate, Refusal, Ticks};
use tablefile::{Reading, Record};

// The bytes of a field, from a place on.
fn field<const N: usize>(bytes: &[u8], at: usize) -> [u8; N]
    requires { at + N ≤ length bytes.now }
    ensures { result ≡ take N (drop at bytes.now) }
{
    let mut field = [0; N];
    field.copy_from_slice(&bytes[at..at + N]);
    field
}

// Whether the two bytes at a place are this mark.
fn is_marked(bytes: &[u8], place: usize, mark: [u8; 2]) -> bool
    requires { place + mark_width ≤ length bytes.now }
    ensures { result ≡ is_mark mark (get_or bytes.now place 0) (get_or bytes.now (place + 1) 0) }
{
    [bytes[place], bytes[place + 1]] == mark
}

// What stands at a place after the mark of each kind: a record, or one that is cut short. The place goes with the bytes, and
// each asks that the mark is in them: a slice behind the mark would not know that the place after the record fits its number.
fn read_group(bytes: &[u8], place: usize) -> Reading
    requires { place + mark_width ≤ length bytes.now }
    ensures { result ≡ read_fields GR (drop (place + mark_width) bytes.now) place }
{
    if bytes.len() - place < tablefile::GROUP_BYTES {
        return Reading::Refused(Refusal::CutShort);
    }
    Reading::Found {
        record: Record::Group {
            group: bytes[place + 2],
            class: bytes[place + 3],
            residence: Ticks(u64::from_be_bytes(field(bytes, place + 4))),
        },
        next: place + tablefile::GROUP_BYTES,
    }
}

fn read_group_default(bytes: &[u8], place: usize) -> Reading
    requires { place + mark_width ≤ length bytes.now }
    ensures { result ≡ read_fields GD (drop (place + mark_width) bytes.now) place }
{
    if bytes.len() - place < tablefile::GROUP_DEFAULT_BYTES {
        return Reading::Refused(Refusal::CutShort);
    }
    Reading::Found {
        record: Record::GroupDefault {
            group: bytes[place + 2],
            class: bytes[place + 3],
        },
        next: place + tablefile::GROUP_DEFAULT_BYTES,
    }
}

fn read_stream(bytes: &[u8], place: usize) -> Reading
    requires { place + mark_width ≤ length bytes.now }
    ensures { result ≡ read_fields ST (drop (place + mark_width) bytes.now) place }
{
    if bytes.len() - place < tablefile::STREAM_BYTES {
        return Reading::Refused(Refusal::CutShort);
    }
    Reading::Found {
        record: Record::Stream {
            stream: bytes[place + 2],
            group: bytes[place + 3],
            rate: Rate(u64::from_be_bytes(field(bytes, place + 4))),
            burst: u32::from_be_bytes(field(bytes, place + 12)),
        },
        next: place + tablefile::STREAM_BYTES,
    }
}

fn read_frame(bytes: &[u8], place: usize) -> Reading
    requires { place + mark_width ≤ length bytes.now }
    ensures { result ≡ read_fields FR (drop (place + mark_width) bytes.now) place }
{
    if bytes.len() - place < tablefile::FRAME_BYTES {
        return Reading::Refused(Refusal::CutShort);
    }
    Reading::Found {
        record: Record::Frame {
            stream: bytes[place + 2],
            octets: u16::from_be_bytes([bytes[place + 3], bytes[place + 4]]),
            arrival: Ticks(u64::from_be_bytes(field(bytes, place + 5))),
        },
        next: place + tablefile::FRAME_BYTES,
    }
}

// What stands at a place: test by test and no match of the two bytes, with frames first, since most records are frames.
pub fn read(bytes: &[u8], place: usize) -> Reading
    ensures { result ≡ read_at bytes.now place }
{
    if bytes.len() <= place {
        return Reading::NothingLeft;
    }
    if bytes.len() - place == 1 {
        return Reading::Refused(Refusal::CutShort);
    }
    if is_marked(bytes, place, tablefile::FRAME_MARK) {
        return read_frame(bytes, place);
    }
    if is_marked(bytes, place, tablefile::GROUP_MARK) {
        return read_group(bytes, place);
    }
    if is_marked(bytes, place, tablefile::GROUP_DEFAULT_MARK) {
        return read_group_default(bytes, place);
    }
    if is_marked(bytes, place, tablefile::STREAM_MARK) {
        return read_stream(bytes, place);
    }
    Reading::Refused(Refusal::UnknownMark)
}
