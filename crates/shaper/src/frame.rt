// One frame through a scheduler: its eligibility time, and the records after it.
ghost use Rattle.std.specs.Prelude.{◌≡◌, ◌≤◌, max, true, false};
ghost use Rattle.quantity.specs.Ranges.{in_range};
ghost use Rattle.records.specs.ExactTime.{exactly, moment_of};
ghost use Rattle.shaper.specs.Frame.{E_after, earliest, after_release, eligibility_time, discarded as discarded_of, released as released_of, process_frame};
ghost use Rattle.records.specs.Sound.{sound};
ghost use Rattle.admission.specs.Tests.{above_burst};
ghost use Rattle.shaper.specs.Numbers.{judged};
ghost use Rattle.shaper.specs.Steps.{latest_release, BucketWorks, Works, StartsAt, ChargedTo};

use crate::exact::{first_tick, lasting, later, until};
use admission::test_frame;
use quantity::{Bits, Item, Rate, Ticks};
use records::{Answer, Group, Judged, Moment, Regulator, Stream};

// The bucket empty time and so many bits more: S for a frame's bits, F for the burst.
fn charged_to(empty: Moment, rate: Rate, bits: Bits) -> Moment
    requires { StartsAt rate.0 empty bits.0 }
    ensures { ChargedTo rate.0 empty bits.0 result }
{
    later(empty, lasting(bits, rate), rate)
}

// The smallest whole tick at which the regulator lets a frame go. What `Works` says of it is no type's invariant: the record
// that is lent may be unsound, and the tests have shown it (`test_frame`).
fn earliest_tick(rate: Rate, regulator: Regulator, bits: Bits) -> Ticks
    requires { Works rate.0 regulator bits.0 }
    ensures { result.0 ≡ earliest rate.0 regulator bits.0 }
{
    match regulator {
        Regulator::Unset => Ticks(0),
        Regulator::Bucket { burst: _, empty } => first_tick(charged_to(empty, rate, bits)),
    }
}

// The bucket empty time after a release at t: S where t is before F, else as long after S as t is after F.
fn emptied(burst: Bits, empty: Moment, rate: Rate, bits: Bits, t: Ticks) -> Moment
    requires { BucketWorks rate.0 burst.0 empty bits.0 × (t.0 ≤ latest_release) }
    ensures { result ≡ moment_of rate.0 (E_after rate.0 (exactly rate.0 empty) burst.0 bits.0 t.0) }
{
    let at = t.0;
    let start = charged_to(empty, rate, bits);
    let full = charged_to(empty, rate, burst);
    if at < first_tick(full).0 {
        return start;
    }
    later(start, until(full, t, rate), rate)
}

// The regulator after a release at t.
fn regulator_after(rate: Rate, regulator: Regulator, bits: Bits, t: Ticks) -> Regulator
    requires { Works rate.0 regulator bits.0 × (t.0 ≤ latest_release) }
    ensures { result ≡ after_release rate.0 regulator bits.0 t.0 }
{
    match regulator {
        Regulator::Unset => Regulator::Unset,
        Regulator::Bucket { burst, empty } => Regulator::Bucket {
            burst,
            empty: emptied(burst, empty, rate, bits, t),
        },
    }
}

// T: the largest of the arrival, the group time and the smallest whole tick that the regulator allows.
fn eligibility_time(stream: Stream, group: Group, bits: Bits, arrival: Ticks) -> Ticks
    requires { Works stream.rate.0 stream.regulator bits.0 }
    ensures { result.0 ≡ eligibility_time stream group bits.0 arrival.0 }
{
    let rate = stream.rate;
    let regulator = stream.regulator;
    let time = group.time;
    let allowed = earliest_tick(rate, regulator, bits);
    arrival.max(time).max(allowed)
}

// The bucket empty time and the group time stay. Field by field: with `..group` and `..stream` a record of the listing takes
// 561 instructions, and so 503.
fn discarded(stream: Stream, group: Group, arrival: Ticks, t: Ticks) -> Judged
    ensures { result ≡ discarded_of stream group arrival.0 t.0 }
{
    let discards = group.discards;
    let mut after = group;
    after.last = arrival;
    after.discards = std::num::wrapping_add_u32(discards, 1);
    Judged {
        answer: Answer::Discarded(t),
        stream,
        group: after,
    }
}

fn released(stream: Stream, group: Group, bits: Bits, arrival: Ticks, t: Ticks) -> Judged
    requires { Works stream.rate.0 stream.regulator bits.0 × (t.0 ≤ latest_release) }
    ensures { result ≡ released_of stream group bits.0 arrival.0 t.0 }
{
    let id = stream.group;
    let rate = stream.rate;
    let regulator = stream.regulator;
    let mut after = group;
    after.time = t;
    after.last = arrival;
    Judged {
        answer: Answer::Released(t),
        stream: Stream {
            group: id,
            rate,
            regulator: regulator_after(rate, regulator, bits, t),
        },
        group: after,
    }
}

// A frame that nothing refuses.
fn process_frame(stream: Stream, group: Group, bits: Bits, arrival: Ticks) -> Judged
    requires { (sound stream group ≡ true) × (above_burst stream.regulator bits.0 ≡ false) × (in_range Item.Arrival arrival.0 ≡ true) }
    ensures { result ≡ process_frame stream group bits.0 arrival.0 }
{
    let at = arrival.0;
    let residence = group.residence.0;
    let t = eligibility_time(stream, group, bits, arrival);
    if at + residence < t.0 {
        return discarded(stream, group, arrival, t);
    }
    released(stream, group, bits, arrival, t)
}

// One frame through a scheduler: refused, discarded or released, with the records after it.
pub fn judge(stream: Stream, group: Group, octets: u16, arrival: Ticks) -> Judged
    ensures { result ≡ judged stream group octets arrival.0 }
{
    match test_frame(stream, group, octets, arrival) {
        Err(why) => Judged::refused(stream, group, why),
        Ok(bits) => process_frame(stream, group, bits, arrival),
    }
}
