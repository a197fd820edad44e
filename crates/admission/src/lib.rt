// What a frame passes before it is judged: the tests in their order, what is sound of a stream with its group among them.
// A record reached from a fresh start always is. Judging itself is `shaper`'s.
#![tactic(auto)]

ghost use Rattle.std.specs.Prelude.{◌≡◌, true, ℕ, ◌<◌, ◌≤◌};
ghost use Rattle.std.specs.Int.Signed.{le_z};
ghost use Rattle.quantity.specs.Ranges.{in_range, most_of};
ghost use Rattle.records.specs.ExactTime.{E_first, exactly, tick_time};
ghost use Rattle.records.specs.Sound.{sound_regulator, sound};
ghost use Rattle.admission.specs.Tests.{above_burst, tested};

use quantity::{
    Bits, Item, ORDINARY_OVERHEAD, Rate, Refusal, TICKS_PER_SECOND, Ticks, charge, in_range,
};
use records::{Group, Moment, Regulator, Stream, is_set_up, sound_group};

// ---- what is sound

// E ≤ G: whatever the rate is, a remainder is less than a tick.
fn not_after(empty: Moment, time: Ticks) -> bool
    ensures { (r : ℕ) → empty.part < r → result ≡ le_z (exactly r empty) (tick_time r time.0) }
{
    let ticks = empty.ticks;
    let part = empty.part;
    let at = time.0;
    if ticks < 0 {
        return true;
    }
    if part == 0 {
        return ticks as u64 <= at;
    }
    (ticks as u64) < at
}

// −b·10⁹/r ≤ E. Only a time before tick 0 asks for the division.
fn not_before_first(burst: Bits, empty: Moment, rate: Rate) -> bool
    requires { (burst.0 ≤ most_of Item.Burst) × ((empty.part < rate.0) × (rate.0 ≤ most_of Item.StreamRate)) }
    ensures { result ≡ le_z (E_first burst.0) (exactly rate.0 empty) }
{
    let ticks = empty.ticks;
    if ticks >= 0 {
        return true;
    }
    let most = (burst.0 * TICKS_PER_SECOND + empty.part) / rate.0;
    ticks + (most as i64) >= 0
}

// Of a stream of a rate in range.
fn sound_bucket(burst: Bits, empty: Moment, rate: Rate, time: Ticks) -> bool
    requires { in_range Item.StreamRate rate.0 ≡ true }
    ensures { result ≡ sound_regulator rate.0 time.0 (Regulator.Bucket burst empty) }
{
    let part = empty.part;
    let r = rate.0;
    if !in_range(Item::Burst, burst.0) {
        return false;
    }
    if part >= r {
        return false;
    }
    if !not_after(empty, time) {
        return false;
    }
    not_before_first(burst, empty, rate)
}

fn is_sound(stream: Stream, group: Group) -> bool
    ensures { result ≡ sound stream group }
{
    let id = stream.group;
    let rate = stream.rate;
    let regulator = stream.regulator;
    let time = group.time;
    if !sound_group(group) {
        return false;
    }
    if !in_range(Item::GroupId, id as u64) {
        return false;
    }
    if !in_range(Item::StreamRate, rate.0) {
        return false;
    }
    match regulator {
        Regulator::Unset => false,
        Regulator::Bucket { burst, empty } => sound_bucket(burst, empty, rate, time),
    }
}

// ---- the tests

fn above_burst(regulator: Regulator, bits: Bits) -> bool
    ensures { result ≡ above_burst regulator bits.0 }
{
    match regulator {
        Regulator::Unset => false,
        Regulator::Bucket { burst, empty: _ } => burst.0 < bits.0,
    }
}

// Tests a frame of so many octets against its stream's and its group's record: its charged bits, if nothing refuses it.
pub fn test_frame(
    stream: Stream,
    group: Group,
    octets: u16,
    arrival: Ticks,
) -> Result<Bits, Refusal>
    ensures { result ≡ tested stream group octets arrival.0 }
{
    let at = arrival.0;
    let last = group.last.0;
    let regulator = stream.regulator;
    if !is_set_up(regulator) {
        return Err(Refusal::NoStream);
    }
    if !is_sound(stream, group) {
        return Err(Refusal::Unsound);
    }
    if !in_range(Item::Octets, octets as u64) {
        return Err(Refusal::LengthRange);
    }
    let bits = charge(octets, ORDINARY_OVERHEAD);
    if above_burst(regulator, bits) {
        return Err(Refusal::AboveBurst);
    }
    if !in_range(Item::Arrival, at) {
        return Err(Refusal::TooLate);
    }
    if at < last {
        return Err(Refusal::BeforeLast);
    }
    Ok(bits)
}
