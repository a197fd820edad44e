// The ground that every other crate stands on: ticks, bits and rates as distinct kinds of quantity, the ranges of
// document 01 by name, the charged bits of a frame, and the names of the refusals with their numbers.
// No record, no queue and no rule of judging lives here.
#![tactic(auto)]

ghost use Rattle.std.specs.Prelude.{◌≡◌, ◌≤◌, false};
ghost use Rattle.std.specs.Range.{range_inclusive_start, range_inclusive_end, range_inclusive_exhausted};
ghost use Rattle.quantity.specs.Ranges.{least_of, most_of, in_range, place_of};
ghost use Rattle.quantity.specs.Kinds.{bits};
ghost use Rattle.quantity.specs.Charge.{charged_bits};
ghost use Rattle.quantity.specs.Numbers.{number_of};

use std::ops::RangeInclusive;

// Whole nanoseconds.
#[derive(Clone, Copy, Debug, PartialEq, Eq, PartialOrd, Ord)]
pub struct Ticks(pub u64);

#[derive(Clone, Copy, Debug, PartialEq, Eq, PartialOrd, Ord)]
pub struct Bits(pub u64);

// Bits per second.
#[derive(Clone, Copy, Debug, PartialEq, Eq, PartialOrd, Ord)]
pub struct Rate(pub u64);

pub const TICKS_PER_SECOND: u64 = 1_000_000_000;

// What document 01 gives a range.
#[derive(Clone, Copy, Debug, PartialEq, Eq)]
pub enum Item {
    StreamId,
    GroupId,
    Class,
    Octets,
    StreamRate,
    Burst,
    Residence,
    Arrival,
    LineRate,
    // Charged bits of a frame or of an entry.
    Charge,
    // Eligibility time of an entry.
    EntryTime,
    // The moment of a pick in a run.
    PickMoment,
    // The moment the line is free.
    LineFree,
    // Places of a run's input lists.
    ListPlaces,
}

// What a line adds to each frame, in octets: preamble, start mark and gap.
pub const ORDINARY_OVERHEAD: u8 = 20;

pub const MOST_STREAM_ID: u64 = 63;

pub const MOST_GROUP_ID: u64 = 15;

pub const MOST_CLASS: u64 = 7;

pub const LEAST_OCTETS: u64 = 1;

pub const MOST_OCTETS: u64 = 2_000;

pub const LEAST_STREAM_RATE: u64 = 1_000;

pub const MOST_STREAM_RATE: u64 = 10_000_000_000;

pub const LEAST_BURST: u64 = 1;

pub const MOST_BURST: u64 = 16_000_000;

pub const MOST_RESIDENCE: u64 = 10_000_000_000;

pub const MOST_ARRIVAL: u64 = 4_000_000_000_000_000_000;

pub const LEAST_LINE_RATE: u64 = 10_000_000;

pub const MOST_LINE_RATE: u64 = 10_000_000_000;

pub const LEAST_CHARGE: u64 = 168;

pub const MOST_CHARGE: u64 = 16_160;

pub const MOST_ENTRY_TIME: u64 = 5_000_000_000_000_000_000;

pub const MOST_PICK_MOMENT: u64 = 4_000_000_000_000_000_000;

pub const MOST_LINE_FREE: u64 = 5_000_000_000_000_000_000;

pub const MOST_LIST_PLACES: u64 = 65_536;

// The range of an item, both ends included.
fn range_of(item: Item) -> RangeInclusive<u64>
    ensures { (range_inclusive_start result ≡ least_of item) × ((range_inclusive_end result ≡ most_of item) × (range_inclusive_exhausted result ≡ false)) }
{
    match item {
        Item::StreamId => 0..=MOST_STREAM_ID,
        Item::GroupId => 0..=MOST_GROUP_ID,
        Item::Class => 0..=MOST_CLASS,
        Item::Octets => LEAST_OCTETS..=MOST_OCTETS,
        Item::StreamRate => LEAST_STREAM_RATE..=MOST_STREAM_RATE,
        Item::Burst => LEAST_BURST..=MOST_BURST,
        Item::Residence => 0..=MOST_RESIDENCE,
        Item::Arrival => 0..=MOST_ARRIVAL,
        Item::LineRate => LEAST_LINE_RATE..=MOST_LINE_RATE,
        Item::Charge => LEAST_CHARGE..=MOST_CHARGE,
        Item::EntryTime => 0..=MOST_ENTRY_TIME,
        Item::PickMoment => 0..=MOST_PICK_MOMENT,
        Item::LineFree => 0..=MOST_LINE_FREE,
        Item::ListPlaces => 0..=MOST_LIST_PLACES,
    }
}

// Whether a number is within an item's range, both ends included.
pub fn in_range(item: Item, n: u64) -> bool
    ensures { result ≡ in_range item n }
{
    range_of(item).contains(&n)
}

// Where a table holds the record of an id: at the id; at place 0 for one out of range, whose record no call changes.
pub fn place_of(item: Item, id: u8) -> usize
    ensures place { result ≡ place_of item id }
    ensures within { result ≤ most_of item }
{
    if in_range(item, id as u64) {
        id as usize
    } else {
        0
    }
}

// Why a call is refused: a name for each number of document 01's table from 9 up, and the number of each.
#[derive(Clone, Copy, Debug, PartialEq, Eq)]
pub enum Refusal {
    // A record or class that the call touches is unsound.
    Unsound = 9,
    // The stream is above 63 or not set up.
    NoStream = 10,
    // Octets, or an entry's charged bits, are out of range.
    LengthRange = 11,
    // The charged bits are above the burst.
    AboveBurst = 12,
    // The arrival is above its limit, or an entry's time.
    TooLate = 13,
    // The arrival is before the group's last arrival.
    BeforeLast = 14,
    // The id to set up is out of range.
    IdRange = 15,
    // The id is already set up.
    SetUpBefore = 16,
    // A stream's group is out of range or not set up.
    NoGroup = 17,
    RateRange = 18,
    BurstRange = 19,
    ResidenceRange = 20,
    ClassRange = 21,
    ClassFull = 22,
    // The two bytes are no known mark.
    UnknownMark = 24,
    // The record is cut short.
    CutShort = 25,
    // The destination is shorter than the record.
    NoRoom = 26,
    // A run's lists do not fit each other, or the start is beyond the end.
    ListsUnfit = 28,
    // The line rate is out of range, or line-free is.
    LineUnfit = 29,
}

// Document 01's number of a refusal. A call and no `From`: `u8::from(refusal)` would not say which number.
pub fn refusal_number(refusal: Refusal) -> u8
    ensures { result ≡ number_of refusal }
{
    refusal as u8
}

// The charged bits of a frame on a line that adds so many octets to each.
pub fn charge(octets: u16, overhead: u8) -> Bits
    ensures { result ≡ bits (charged_bits overhead octets) }
{
    Bits(8 * ((octets as u64) + (overhead as u64)))
}
