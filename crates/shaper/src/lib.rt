// The shaper core: one frame, one stream, one group, by value, exactly as the standard's ProcessFrame has it.
// Exact time and `judge` live here; the records and the tests before judging stand below, tables, queues and files above.
#![tactic(auto)]

mod exact;
mod frame;

pub use frame::judge;

// An exact length of time, of a stream of rate r: whole ticks, and a remainder below r, counted in r-ths of a tick. Its own
// type beside `Moment`, from which it differs in the sign of the ticks: a length is no moment.
#[derive(Clone, Copy)]
pub struct Span {
    pub ticks: u64,
    pub part: u64,
}
