// The static library that C links: `firmware`'s calls under the names of include/aldurretx.h. Each export is one call with
// the clauses of the call that it makes; nothing is decided here.
#![tactic(auto)]

ghost use Rattle.std.specs.Prelude.{◌≡◌};
ghost use Rattle.calls.specs.Calls.{group_placed, stream_placed};
ghost use Rattle.firmware.specs.Firmware.{group_of, stream_of, group_told, stream_told, frame_received};

use firmware::{GroupRecord, StreamRecord};

// Sets up the group `id` in its lent record.
#[unsafe(no_mangle)]
pub extern "C" fn aldurretx_set_up_group(
    id: u64,
    group: &mut GroupRecord,
    class: u64,
    residence: u64,
) -> u8
    ensures { record { number = result; group = group.new } ≡ group_told (group_placed id (group_of group.old) class residence) }
{
    firmware::aldurretx_set_up_group(id, group, class, residence)
}

// Sets up the stream `id` in its lent record, in the group `in_group`, whose record is lent too.
#[unsafe(no_mangle)]
pub extern "C" fn aldurretx_set_up_stream(
    id: u64,
    stream: &mut StreamRecord,
    in_group: u64,
    group: &GroupRecord,
    rate: u64,
    burst: u64,
) -> u8
    ensures { record { number = result; stream = stream.new }
        ≡ stream_told stream.old (stream_placed id (stream_of stream.old) in_group (group_of group.now) rate burst) }
{
    firmware::aldurretx_set_up_stream(id, stream, in_group, group, rate, burst)
}

// Judges a frame on the records that C lends: the answer's number back, T behind `time`.
#[unsafe(no_mangle)]
pub extern "C" fn aldurretx_receive(
    id: u64,
    group: &mut GroupRecord,
    streams: &mut [StreamRecord],
    stream: u64,
    octets: u64,
    arrival: u64,
    time: &mut u64,
) -> u8
    ensures { record { number = result; time = time.new; group = group.new; streams = streams.new }
        ≡ frame_received id group.old streams.old stream octets arrival time.old }
{
    firmware::aldurretx_receive(id, group, streams, stream, octets, arrival, time)
}
