// The interrupt side: a frame judged where its records stand, in one lent group's record and a lent run of 64 stream
// records. Every decision is `lent`'s and `shaper`'s; the call here only carries.
#![tactic(auto)]

ghost use Rattle.std.specs.Prelude.{◌≡◌};
ghost use Rattle.lent.specs.InPlace.{received};

use lent::{is_ready, judge_in, unready};
use quantity::Ticks;
use records::{Answer, Group, Stream};

// Judges a frame of a stream of the group `id`: its own record of the run and the group's are rewritten where they
// stand.
pub fn receive(
    id: u8,
    group: &mut Group,
    streams: &mut [Stream],
    stream: u8,
    octets: u16,
    arrival: Ticks,
) -> Answer
    ensures { record { answer = result; group = group.new; streams = streams.new }
        ≡ received id group.old streams.old stream octets arrival.0 }
{
    if is_ready(streams.len(), stream as u64) {
        let at = stream as usize;
        let judged = judge_in(id, streams[at], *group, octets, arrival);
        group.time = judged.group.time;
        group.last = judged.group.last;
        group.discards = judged.group.discards;
        streams[at] = judged.stream;
        return judged.answer;
    } else {
        return unready(streams.len());
    }
}
