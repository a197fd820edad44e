// The bridge's tables of 16 groups and 64 streams, and the calls on them: set up a group, set up a stream, a frame.
// What a call makes of single records is `calls`'; here stand the tables, and which of their places change.
#![tactic(auto)]

ghost use Rattle.std.specs.Prelude.{◌≡◌};
ghost use Rattle.bridge.specs.Tables.{no_group, no_stream, fresh_bridge};
ghost use Rattle.bridge.specs.Calls.{group_called, stream_called, frame_called};

use calls::{judge_at, place_group, place_stream};
use quantity::{Bits, Item, Rate, Refusal, Ticks, place_of};
use records::{Answer, Group, Regulator, Stream};

#[derive(Clone, Copy)]
pub struct Bridge {
    pub groups: [Group; 16],
    pub streams: [Stream; 64],
}

// The answer to a call, and the tables after it.
#[derive(Clone, Copy)]
pub struct Called<A> {
    pub answer: A,
    pub bridge: Bridge,
}

// A group's record that is not set up. No `Default`: clauses and theorems name it, `no_group`.
fn no_group() -> Group
    ensures { result ≡ no_group }
{
    Group {
        used: false,
        class: 0,
        residence: Ticks(0),
        time: Ticks(0),
        last: Ticks(0),
        discards: 0,
    }
}

// A stream's record that is not set up, `no_stream`.
fn no_stream() -> Stream
    ensures { result ≡ no_stream }
{
    Stream {
        group: 0,
        rate: Rate(0),
        regulator: Regulator::Unset,
    }
}

// Tables with nothing set up.
pub fn fresh() -> Bridge
    ensures { result ≡ fresh_bridge }
{
    Bridge {
        groups: [no_group(); 16],
        streams: [no_stream(); 64],
    }
}

impl Bridge {
    // Sets up a group.
    pub fn set_up_group(&mut self, id: u8, class: u8, residence: Ticks) -> Result<(), Refusal>
        ensures { record { answer = result; bridge = self.new } ≡ group_called self.old id class residence.0 }
    {
        let at = place_of(Item::GroupId, id);
        let placed = place_group(id, self.groups[at], class, residence);
        self.groups[at] = placed.after;
        placed.answer
    }

    // Sets up a stream in a group.
    pub fn set_up_stream(
        &mut self,
        id: u8,
        group: u8,
        rate: Rate,
        burst: Bits,
    ) -> Result<(), Refusal>
        ensures { record { answer = result; bridge = self.new } ≡ stream_called self.old id group rate.0 burst.0 }
    {
        let at = place_of(Item::StreamId, id);
        let of = place_of(Item::GroupId, group);
        let placed = place_stream(id, self.streams[at], group, self.groups[of], rate, burst);
        self.streams[at] = placed.after;
        placed.answer
    }

    // Judges a frame of a stream.
    pub fn frame(&mut self, id: u8, octets: u16, arrival: Ticks) -> Answer
        ensures { record { answer = result; bridge = self.new } ≡ frame_called self.old id octets arrival.0 }
    {
        let at = place_of(Item::StreamId, id);
        let stream = self.streams[at];
        let of = place_of(Item::GroupId, stream.group);
        let judged = judge_at(id, stream, self.groups[of], octets, arrival);
        self.streams[at] = judged.stream;
        self.groups[of] = judged.group;
        judged.answer
    }
}

// ---- the calls on tables that are given and given back

// Sets up a group. On the groups alone and not by the method: lent to it, the streams would be copied for a call that only hands
// them on, which took four times as long.
pub fn set_up_group(
    bridge: Bridge,
    id: u8,
    class: u8,
    residence: Ticks,
) -> Called<Result<(), Refusal>>
    ensures { result ≡ group_called bridge id class residence.0 }
{
    let mut groups = bridge.groups;
    let at = place_of(Item::GroupId, id);
    let placed = place_group(id, groups[at], class, residence);
    groups[at] = placed.after;
    Called {
        answer: placed.answer,
        bridge: Bridge { groups, ..bridge },
    }
}

// Sets up a stream in a group.
pub fn set_up_stream(
    mut bridge: Bridge,
    id: u8,
    group: u8,
    rate: Rate,
    burst: Bits,
) -> Called<Result<(), Refusal>>
    ensures { result ≡ stream_called bridge id group rate.0 burst.0 }
{
    let answer = bridge.set_up_stream(id, group, rate, burst);
    Called { answer, bridge }
}

// Judges a frame of a stream.
pub fn frame(mut bridge: Bridge, id: u8, octets: u16, arrival: Ticks) -> Called<Answer>
    ensures { result ≡ frame_called bridge id octets arrival.0 }
{
    let answer = bridge.frame(id, octets, arrival);
    Called { answer, bridge }
}
