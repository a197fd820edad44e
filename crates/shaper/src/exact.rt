// Exact time: what a rate turns bits into, and sums of moments and spans with their remainders. Nothing is rounded but
// by `first_tick`, once for each frame.
ghost use Rattle.std.specs.Prelude.{◌≡◌, ℕ, ◌+◌, ◌*◌, ◌^◌, ◌<◌, ◌≤◌, pos, ◌+ℤ◌};
ghost use Rattle.quantity.specs.Ranges.{most_of};
ghost use Rattle.records.specs.ExactTime.{or_zero, exactly, rounded_up};
ghost use Rattle.records.specs.Steps.{shortfall};
ghost use Rattle.shaper.specs.Steps.{span_time, Lasts, Later, Fills};

use crate::Span;
use quantity::{Bits, Item, Rate, TICKS_PER_SECOND, Ticks};
use records::Moment;

// n ticks after a.
fn raised(a: i64, n: u64) -> i64
    requires { or_zero a + n < 2 ^ 63 }
    ensures { result ≡ a +ℤ pos n }
{
    a + (n as i64)
}

// How long the bits take at the rate.
pub(crate) fn lasting(bits: Bits, rate: Rate) -> Span
    requires { (bits.0 ≤ most_of Item.Burst) × (0 < rate.0) }
    ensures { Lasts rate.0 bits.0 result }
{
    let parts = bits.0 * TICKS_PER_SECOND;
    let r = rate.0;
    Span {
        ticks: parts / r,
        part: parts % r,
    }
}

// The moment that is a span after m.
pub(crate) fn later(m: Moment, span: Span, rate: Rate) -> Moment
    requires part_lt_rate { (m.part < rate.0) × ((span.part < rate.0) × (rate.0 < 2 ^ 63)) }
    requires ticks_bound { or_zero m.ticks + (span.ticks + 1) < 2 ^ 63 }
    ensures { Later rate.0 m (span_time rate.0 span) (span.ticks + 1) result }
{
    let over = m.part + span.part;
    let whole = span.ticks;
    let r = rate.0;
    if over < r {
        Moment {
            ticks: raised(m.ticks, whole),
            part: over,
        }
    } else {
        Moment {
            ticks: raised(m.ticks, whole + 1),
            part: over - r,
        }
    }
}

// The smallest whole tick, from 0 on, that is not below m: whatever the rate is, a remainder is less than a tick.
pub(crate) fn first_tick(m: Moment) -> Ticks
    ensures { (r : ℕ) → m.part < r → result.0 ≡ or_zero (rounded_up r (exactly r m)) }
{
    let ticks = m.ticks;
    let part = m.part;
    if ticks < 0 {
        return Ticks(0);
    }
    if part == 0 {
        return Ticks(ticks as u64);
    }
    Ticks(ticks as u64 + 1)
}

// How long it is from m, which is not below 0, to the tick t.
pub(crate) fn until(m: Moment, t: Ticks, rate: Rate) -> Span
    requires part_lt_rate { (m.part < rate.0) × (shortfall m.ticks ≡ 0) }
    requires m_bound { or_zero (exactly rate.0 m) ≤ t.0 * rate.0 }
    ensures { Fills rate.0 m t.0 result }
{
    let from = m.ticks as u64;
    let part = m.part;
    let to = t.0;
    let r = rate.0;
    if part == 0 {
        return Span {
            ticks: to - from,
            part: 0,
        };
    }
    Span {
        ticks: to - from - 1,
        part: r - part,
    }
}
