// Set-up of one record: what is out of range is refused, and buckets start full. That an id is out of range or already
// set up is for the calls by id to say.
#![tactic(auto)]

ghost use Rattle.std.specs.Prelude.{◌≡◌, true, ◌+◌, ◌*◌, ◌<◌, ◌^◌, pos, neg_ℤ};
ghost use Rattle.quantity.specs.Ranges.{in_range};
ghost use Rattle.records.specs.ExactTime.{moment_of};
ghost use Rattle.setup.specs.SetUp.{fresh_stream, group_set_up, stream_set_up};

use quantity::{Bits, Item, Rate, Refusal, TICKS_PER_SECOND, Ticks, in_range};
use records::{Group, Moment, Regulator, Stream, sound_group};

// A group of a class and a residence limit.
pub fn set_up_group(class: u8, residence: Ticks) -> Result<Group, Refusal>
    ensures { result ≡ group_set_up class residence.0 }
{
    if !in_range(Item::Class, class as u64) {
        return Err(Refusal::ClassRange);
    }
    if !in_range(Item::Residence, residence.0) {
        return Err(Refusal::ResidenceRange);
    }
    Ok(Group {
        used: true,
        class,
        residence,
        time: Ticks(0),
        last: Ticks(0),
        discards: 0,
    })
}

// n ticks before tick 0.
fn lowered(n: u64) -> i64
    requires { n < 2 ^ 63 }
    ensures { result ≡ neg_ℤ (pos n) }
{
    0 - (n as i64)
}

// The moment that is so many whole ticks and r-ths of a tick before tick 0.
fn before_zero(whole: u64, part: u64, rate: Rate) -> Moment
    requires { (part < rate.0) × (whole + 1 < 2 ^ 63) }
    ensures { result ≡ moment_of rate.0 (neg_ℤ (pos (whole * rate.0 + part))) }
{
    let r = rate.0;
    if part == 0 {
        return Moment {
            ticks: lowered(whole),
            part: 0,
        };
    }
    Moment {
        ticks: lowered(whole + 1),
        part: r - part,
    }
}

// A stream whose bucket is full: the bucket empty time is as long before tick 0 as the burst lasts.
fn fresh_stream(id: u8, rate: Rate, burst: Bits) -> Stream
    requires { (in_range Item.StreamRate rate.0 ≡ true) × (in_range Item.Burst burst.0 ≡ true) }
    ensures { result ≡ fresh_stream id rate.0 burst.0 }
{
    let parts = burst.0 * TICKS_PER_SECOND;
    let r = rate.0;
    let empty = before_zero(parts / r, parts % r, rate);
    Stream {
        group: id,
        rate,
        regulator: Regulator::Bucket { burst, empty },
    }
}

// A stream of a rate and a burst in the group `id`, whose record comes with it.
pub fn set_up_stream(id: u8, group: Group, rate: Rate, burst: Bits) -> Result<Stream, Refusal>
    ensures { result ≡ stream_set_up id group rate.0 burst.0 }
{
    let used = group.used;
    if !in_range(Item::GroupId, id as u64) {
        return Err(Refusal::NoGroup);
    }
    if !used {
        return Err(Refusal::NoGroup);
    }
    if !sound_group(group) {
        return Err(Refusal::Unsound);
    }
    if !in_range(Item::StreamRate, rate.0) {
        return Err(Refusal::RateRange);
    }
    if !in_range(Item::Burst, burst.0) {
        return Err(Refusal::BurstRange);
    }
    Ok(fresh_stream(id, rate, burst))
}
