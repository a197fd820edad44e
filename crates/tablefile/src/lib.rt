// The table file: its records, their marks and sizes, what a record without a residence stands for, and what reading and
// writing can answer.
// Reading a record is `reader`'s, and writing it `writer`'s. Every field value is taken as it stands; whether a group, a
// stream or a frame is within its ranges is for set-up and judging to say, in the crates that know them.
#![tactic(auto)]

ghost use Rattle.std.specs.Prelude.{◌≡◌};
ghost use Rattle.tablefile.specs.Layout.{mark, kind_of};
ghost use Rattle.tablefile.specs.Answers.{reading_number, written_number};

use quantity::{Rate, Refusal, Ticks};

#[derive(Clone, Copy)]
pub enum Record {
    // GR
    Group {
        group: u8,
        class: u8,
        residence: Ticks,
    },
    // GD: a group with the default residence.
    GroupDefault {
        group: u8,
        class: u8,
    },
    // ST. The burst is in bits, and has four bytes in the file.
    Stream {
        stream: u8,
        group: u8,
        rate: Rate,
        burst: u32,
    },
    // FR
    Frame {
        stream: u8,
        octets: u16,
        arrival: Ticks,
    },
}

// What the reader finds at a place. Three answers with a number each: no Option in a Result says them more plainly.
#[derive(Clone, Copy)]
pub enum Reading {
    // A record, and the place after it.
    Found { record: Record, next: usize },
    NothingLeft,
    Refused(Refusal),
}

// The marks: two bytes before each record, which are also its letters.
pub const GROUP_MARK: [u8; 2] = *b"GR";

pub const GROUP_DEFAULT_MARK: [u8; 2] = *b"GD";

pub const STREAM_MARK: [u8; 2] = *b"ST";

pub const FRAME_MARK: [u8; 2] = *b"FR";

// The bytes of a record, its mark among them.
pub const GROUP_BYTES: usize = 12;

pub const GROUP_DEFAULT_BYTES: usize = 4;

pub const STREAM_BYTES: usize = 16;

pub const FRAME_BYTES: usize = 13;

// The residence that a GD record stands for, in ticks.
pub const DEFAULT_RESIDENCE: u64 = 10_000_000;

// The mark of a record.
pub fn letters(given: Record) -> [u8; 2]
    ensures { result ≡ mark (kind_of given) }
{
    match given {
        Record::Group { .. } => GROUP_MARK,
        Record::GroupDefault { .. } => GROUP_DEFAULT_MARK,
        Record::Stream { .. } => STREAM_MARK,
        Record::Frame { .. } => FRAME_MARK,
    }
}

// Document 01's number for what the reader finds. A call and no `From`: `u8::from(reading)` would not say
// which number.
pub fn reading_number(reading: Reading) -> u8
    ensures { result ≡ reading_number reading }
{
    match reading {
        Reading::Found { .. } => 0,
        Reading::NothingLeft => 5,
        Reading::Refused(why) => quantity::refusal_number(why),
    }
}

// Document 01's number for what the writer did: so many bytes stand at the front of the lent part, or it refused. No crate may
// give `u8` a `From` of the library's Result.
pub fn written_number(written: Result<usize, Refusal>) -> u8
    ensures { result ≡ written_number written }
{
    match written {
        Ok(_) => 0,
        Err(why) => quantity::refusal_number(why),
    }
}
