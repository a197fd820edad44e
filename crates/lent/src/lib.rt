// The interrupt side's decisions, by value: whether a lent run of stream records can be worked in, and what a frame is by
// the lent group's record. The calls that rewrite lent records stand above and only carry.
#![tactic(auto)]

ghost use Rattle.std.specs.Prelude.{◌≡◌};
ghost use Rattle.lent.specs.InPlace.{judged_in};
ghost use Rattle.lent.specs.Steps.{ready, unreadiness};

use quantity::{Item, Refusal, Ticks, in_range};
use records::{Answer, Group, Judged, Stream};

// A lent run has a place for each stream id.
const RUN_PLACES: usize = 64;

// Whether the run has its length and the stream has a place in it.
pub fn is_ready(places: usize, stream: u64) -> bool
    ensures { result ≡ ready places stream }
{
    if places != RUN_PLACES {
        return false;
    }
    in_range(Item::StreamId, stream)
}

// The answer where it is not so: the length is looked at first. A call of its own and no Result of
// `is_ready`: the clauses of what C calls have both, `ready` and `unreadiness`.
pub fn unready(places: usize) -> Answer
    ensures { result ≡ Answer.Refused (unreadiness places) }
{
    if places != RUN_PLACES {
        return Answer::Refused(Refusal::Unsound);
    }
    Answer::Refused(Refusal::NoStream)
}

// Judges a frame of a stream by the record of the group `id`, of which the stream should be.
pub fn judge_in(id: u8, stream: Stream, group: Group, octets: u16, arrival: Ticks) -> Judged
    ensures { result ≡ judged_in id stream group octets arrival.0 }
{
    let regulator = stream.regulator;
    let home = stream.group;
    if !records::is_set_up(regulator) {
        return Judged::refused(stream, group, Refusal::NoStream);
    }
    if home != id {
        return Judged::refused(stream, group, Refusal::Unsound);
    }
    shaper::judge(stream, group, octets, arrival)
}
