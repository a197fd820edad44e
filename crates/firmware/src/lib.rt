// What C calls, over numbers and over records that C can name: include/aldurretx.h says how they look from there, and
// `firmware_c` gives it to C under these names.
// Ids, classes and octets come as wide numbers, and what does not fit its field is refused as out of range, not wrapped.
#![tactic(auto)]

ghost use Rattle.std.specs.Prelude.{◌≡◌, min};
ghost use Rattle.calls.specs.Calls.{group_placed, stream_placed};
ghost use Rattle.quantity.specs.Numbers.{number_of};
ghost use Rattle.lent.specs.InPlace.{judged_in};
ghost use Rattle.lent.specs.Steps.{unreadiness};
ghost use Rattle.firmware.specs.Steps.{most_of_byte, most_of_half};
ghost use Rattle.firmware.specs.Firmware.{group_of, group_record, stream_of, stream_record, time_after, group_told, stream_told, frame_told, frame_received};

use calls::{place_group, place_stream, set_up_number};
use lent::{is_ready, judge_in, unready};
use quantity::{Bits, Rate, Ticks};
use records::{Answer, Group, Moment, Regulator, Stream, answer_number};

// A group's record, as C lends it.
#[repr(C)]
#[derive(Clone, Copy)]
pub struct GroupRecord {
    // Whether the group is set up: C knows no Option.
    pub used: bool,
    pub class: u8,
    pub discards: u32,
    // The residence limit M, the group time G and the last arrival, in ticks.
    pub residence: u64,
    pub time: u64,
    pub last: u64,
}

// A stream's record, as C lends it: an exported call takes no enum.
#[repr(C)]
#[derive(Clone, Copy)]
pub struct StreamRecord {
    // Whether the stream is set up: C knows no Option.
    pub used: bool,
    pub group: u8,
    // Bits per second, and bits.
    pub rate: u64,
    pub burst: u64,
    // The bucket empty time E: whole ticks, and a remainder in rate-ths of a tick.
    pub empty: i64,
    pub part: u64,
}

// The number of a set-up, and the record after it: numbers, since C is told them. Two types, since the clauses of the
// exported calls speak of `group` and of `stream`.
#[derive(Clone, Copy)]
pub struct GroupTold {
    pub number: u8,
    pub group: GroupRecord,
}

#[derive(Clone, Copy)]
pub struct StreamTold {
    pub number: u8,
    pub stream: StreamRecord,
}

// The number of a frame's answer, what the caller's eligibility time then is, and the records after it.
#[derive(Clone, Copy)]
pub struct FrameTold {
    pub number: u8,
    pub time: u64,
    pub stream: StreamRecord,
    pub group: GroupRecord,
}

// A number that fits no id and no class stays out of range. Two functions of a line each: no trait has both the bound and
// the conversion.
fn byte(n: u64) -> u8
    ensures { result ≡ min n most_of_byte }
{
    u8::try_from(n).unwrap_or(u8::MAX)
}

// Octets beyond their field stay out of range.
fn half(n: u64) -> u16
    ensures { result ≡ min n most_of_half }
{
    u16::try_from(n).unwrap_or(u16::MAX)
}

impl From<GroupRecord> for Group {
    ghost from_gives = { λ lent group. group ≡ group_of lent };

    fn from(lent: GroupRecord) -> Group {
        Group {
            used: lent.used,
            class: lent.class,
            residence: Ticks(lent.residence),
            time: Ticks(lent.time),
            last: Ticks(lent.last),
            discards: lent.discards,
        }
    }
}

impl From<Group> for GroupRecord {
    ghost from_gives = { λ group lent. lent ≡ group_record group };

    fn from(group: Group) -> GroupRecord {
        GroupRecord {
            used: group.used,
            class: group.class,
            discards: group.discards,
            residence: group.residence.0,
            time: group.time.0,
            last: group.last.0,
        }
    }
}

impl From<StreamRecord> for Stream {
    ghost from_gives = { λ lent stream. stream ≡ stream_of lent };

    fn from(lent: StreamRecord) -> Stream {
        let regulator = if lent.used {
            Regulator::Bucket {
                burst: Bits(lent.burst),
                empty: Moment {
                    ticks: lent.empty,
                    part: lent.part,
                },
            }
        } else {
            Regulator::Unset
        };
        Stream {
            group: lent.group,
            rate: Rate(lent.rate),
            regulator,
        }
    }
}

// The record `s` where `after` is to stand; what is not set up leaves it as it was.
fn stream_record(s: StreamRecord, after: Stream) -> StreamRecord
    ensures { result ≡ stream_record s after }
{
    let group = after.group;
    let rate = after.rate.0;
    let regulator = after.regulator;
    match regulator {
        Regulator::Unset => s,
        Regulator::Bucket { burst, empty } => StreamRecord {
            used: true,
            group,
            rate,
            burst: burst.0,
            empty: empty.ticks,
            part: empty.part,
        },
    }
}

// T of a judged frame; a refused frame leaves the caller's time.
fn time_after(answer: Answer, time: u64) -> u64
    ensures { result ≡ time_after answer time }
{
    match answer {
        Answer::Released(t) => t.0,
        Answer::Discarded(t) => t.0,
        Answer::Refused(_) => time,
    }
}

fn unready_number(places: usize) -> u8
    ensures { result ≡ number_of (unreadiness places) }
{
    answer_number(unready(places))
}

fn tell_group(id: u64, group: GroupRecord, class: u64, residence: u64) -> GroupTold
    ensures { result ≡ group_told (group_placed id (group_of group) class residence) }
{
    let placed = place_group(byte(id), Group::from(group), byte(class), Ticks(residence));
    GroupTold {
        number: set_up_number(placed.answer),
        group: GroupRecord::from(placed.after),
    }
}

fn tell_stream(
    id: u64,
    stream: StreamRecord,
    in_group: u64,
    group: GroupRecord,
    rate: u64,
    burst: u64,
) -> StreamTold
    ensures { result ≡ stream_told stream (stream_placed id (stream_of stream) in_group (group_of group) rate burst) }
{
    let placed = place_stream(
        byte(id),
        Stream::from(stream),
        byte(in_group),
        Group::from(group),
        Rate(rate),
        Bits(burst),
    );
    StreamTold {
        number: set_up_number(placed.answer),
        stream: stream_record(stream, placed.after),
    }
}

fn tell_frame(
    id: u64,
    stream: StreamRecord,
    group: GroupRecord,
    octets: u64,
    arrival: u64,
    time: u64,
) -> FrameTold
    ensures { result ≡ frame_told stream time (judged_in id (stream_of stream) (group_of group) octets arrival) }
{
    let judged = judge_in(
        byte(id),
        Stream::from(stream),
        Group::from(group),
        half(octets),
        Ticks(arrival),
    );
    FrameTold {
        number: answer_number(judged.answer),
        time: time_after(judged.answer, time),
        stream: stream_record(stream, judged.stream),
        group: GroupRecord::from(judged.group),
    }
}

// Sets up the group `id` in its lent record.
pub fn aldurretx_set_up_group(id: u64, group: &mut GroupRecord, class: u64, residence: u64) -> u8
    ensures { record { number = result; group = group.new } ≡ group_told (group_placed id (group_of group.old) class residence) }
{
    let told = tell_group(id, *group, class, residence);
    *group = told.group;
    told.number
}

// Sets up the stream `id` in its lent record, in the group `in_group`, whose record is lent too.
pub fn aldurretx_set_up_stream(
    id: u64,
    stream: &mut StreamRecord,
    in_group: u64,
    group: &GroupRecord,
    rate: u64,
    burst: u64,
) -> u8
    ensures { record { number = result; stream = stream.new }
        ≡ stream_told stream.old (stream_placed id (stream_of stream.old) in_group (group_of group.now) rate burst) }
{
    let told = tell_stream(id, *stream, in_group, *group, rate, burst);
    *stream = told.stream;
    told.number
}

// `receive` on the records that C lends, which C has to name, so that it is carried here again: the answer's number back, T behind `time`.
pub fn aldurretx_receive(
    id: u64,
    group: &mut GroupRecord,
    streams: &mut [StreamRecord],
    stream: u64,
    octets: u64,
    arrival: u64,
    time: &mut u64,
) -> u8
    ensures { record { number = result; time = time.new; group = group.new; streams = streams.new }
        ≡ frame_received id group.old streams.old stream octets arrival time.old }
{
    if is_ready(streams.len(), stream) {
        let at = stream as usize;
        let told = tell_frame(id, streams[at], *group, octets, arrival, *time);
        group.discards = told.group.discards;
        group.time = told.group.time;
        group.last = told.group.last;
        streams[at].empty = told.stream.empty;
        streams[at].part = told.stream.part;
        *time = told.time;
        return told.number;
    } else {
        return unready_number(streams.len());
    }
}
