// The calls by id on single records: what a set-up or a frame makes of the record at an id's place.
// The work on one record is `records`' and `shaper`'s; here stand the ids and the order of their refusals; the tables
// stand above, in `bridge`.
#![tactic(auto)]

ghost use Rattle.std.specs.Prelude.{◌≡◌};
ghost use Rattle.calls.specs.Calls.{judged_at, group_placed, stream_placed};
ghost use Rattle.calls.specs.Numbers.{set_up_number};

use quantity::{Bits, Item, Rate, Refusal, Ticks, in_range, refusal_number};
use records::{Group, Judged, Stream};

// The answer to a set-up, and the record at its place after it. No Result of the record: what stands after a refusal is
// promised, too (`refused_group_stays`, `refused_stream_stays`).
#[derive(Clone, Copy)]
pub struct Placed<R> {
    pub answer: Result<(), Refusal>,
    pub after: R,
}

// Document 01's number of a set-up's answer. A call: no crate may give `u8` a `From` of the library's Result.
pub fn set_up_number(answer: Result<(), Refusal>) -> u8
    ensures { result ≡ set_up_number answer }
{
    match answer {
        Ok(()) => 0,
        Err(why) => refusal_number(why),
    }
}

// What stood at the place stays.
fn kept<R>(standing: R, why: Refusal) -> Placed<R>
    ensures { result ≡ record { answer = Err why; after = standing } }
{
    Placed {
        answer: Err(why),
        after: standing,
    }
}

// Sets up the group `id`, at whose place `group` stands.
pub fn place_group(id: u8, group: Group, class: u8, residence: Ticks) -> Placed<Group>
    ensures { result ≡ group_placed id group class residence.0 }
{
    let used = group.used;
    if !in_range(Item::GroupId, id as u64) {
        return kept(group, Refusal::IdRange);
    }
    if used {
        return kept(group, Refusal::SetUpBefore);
    }
    match setup::set_up_group(class, residence) {
        Err(why) => kept(group, why),
        Ok(fresh_group) => Placed {
            answer: Ok(()),
            after: fresh_group,
        },
    }
}

// Sets up the stream `id`, at whose place `stream` stands, in the group `in_group`, whose record is `group`.
pub fn place_stream(
    id: u8,
    stream: Stream,
    in_group: u8,
    group: Group,
    rate: Rate,
    burst: Bits,
) -> Placed<Stream>
    ensures { result ≡ stream_placed id stream in_group group rate.0 burst.0 }
{
    let regulator = stream.regulator;
    if !in_range(Item::StreamId, id as u64) {
        return kept(stream, Refusal::IdRange);
    }
    if records::is_set_up(regulator) {
        return kept(stream, Refusal::SetUpBefore);
    }
    match setup::set_up_stream(in_group, group, rate, burst) {
        Err(why) => kept(stream, why),
        Ok(fresh_stream) => Placed {
            answer: Ok(()),
            after: fresh_stream,
        },
    }
}

// Judges a frame of the stream `id`, whose record is `stream` and whose group's record is `group`.
pub fn judge_at(id: u8, stream: Stream, group: Group, octets: u16, arrival: Ticks) -> Judged
    ensures { result ≡ judged_at id stream group octets arrival.0 }
{
    if !in_range(Item::StreamId, id as u64) {
        return Judged::refused(stream, group, Refusal::NoStream);
    }
    shaper::judge(stream, group, octets, arrival)
}
