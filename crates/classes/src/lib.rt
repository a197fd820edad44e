// The eight classes: what is sound, entering, and picking at a moment.
// The places themselves are `places`' work, and which entry of a class goes first is found by `firsts`.
// No frame is judged here, and when to pick is the caller's business.
#![tactic(auto)]

ghost use Rattle.std.specs.Prelude.{◌≡◌, ◌<◌};
ghost use Rattle.places.specs.Queue.{classes};
ghost use Rattle.classes.specs.Soundness.{entry_sound, class_sound, all_sound};
ghost use Rattle.classes.specs.Calls.{due_of, enter_gives, pick_gives};

use places::{Entry, Picked, Waiting};
use quantity::{Item, Refusal, Ticks};

// The class to pick from, and the place in it of the entry that goes first.
#[derive(Clone, Copy)]
pub struct Due {
    pub class: u8,
    pub place: usize,
}

// ---- what is sound

// Whether what an entry holds is in range.
fn entry_sound(time: u64, bits: u64) -> bool
    ensures { result ≡ entry_sound time bits }
{
    quantity::in_range(Item::Charge, bits) && quantity::in_range(Item::EntryTime, time)
}

// Whether a class is sound. What stands beyond its fill is not looked at.
fn class_sound(waiting: &Waiting, class: u8) -> bool
    requires { class < classes }
    ensures { result ≡ class_sound waiting.now.times waiting.now.bits waiting.now.fills class }
{
    let n = waiting.fills[class as usize];
    if n > places::FULL {
        return false;
    }
    let start = class as usize * places::PLACES;
    let end = start + n as usize;
    for i in start..end {
        if !entry_sound(waiting.times[i], waiting.bits[i]) {
            return false;
        }
    }
    true
}

// Whether all eight classes are sound.
pub fn all_sound(waiting: &Waiting) -> bool
    ensures { result ≡ all_sound waiting.now.times waiting.now.bits waiting.now.fills }
{
    for class in 0..=places::LAST_CLASS {
        if !class_sound(waiting, class) {
            return false;
        }
    }
    true
}

// ---- entering

// Enters an entry into a class, in place. Only that class is tested.
pub fn enter_in_place(waiting: &mut Waiting, class: u8, entry: Entry) -> Result<(), Refusal>
    ensures { record { answer = result; waiting = waiting.new } ≡ enter_gives waiting.old class entry }
{
    if class > places::LAST_CLASS {
        return Err(Refusal::ClassRange);
    }
    if !class_sound(waiting, class) {
        return Err(Refusal::Unsound);
    }
    if !quantity::in_range(Item::Charge, entry.bits.0) {
        return Err(Refusal::LengthRange);
    }
    if !quantity::in_range(Item::EntryTime, entry.time.0) {
        return Err(Refusal::TooLate);
    }
    if !waiting.put(class, entry) {
        return Err(Refusal::ClassFull);
    }
    Ok(())
}

// ---- picking

// The highest class that has an entry whose time is not after the moment, and which of its entries goes first.
fn highest_due(waiting: &Waiting, moment: u64) -> Option<Due>
    ensures { result ≡ due_of waiting.now.times waiting.now.fills moment }
{
    for class in (0..=places::LAST_CLASS).rev() {
        if let Some(first) = firsts::first_least(waiting, class) {
            if first.time.0 <= moment {
                return Some(Due {
                    class,
                    place: first.place,
                });
            }
        }
    }
    None
}

// Picks at a moment, in place. All classes are tested.
pub fn pick_in_place(waiting: &mut Waiting, moment: Ticks) -> Picked
    ensures { record { answer = result; waiting = waiting.new } ≡ pick_gives waiting.old moment.0 }
{
    if !all_sound(waiting) {
        return Picked::Refused(Refusal::Unsound);
    }
    let Some(due) = highest_due(waiting, moment.0) else {
        return Picked::Nothing;
    };
    match waiting.take_out(due.class, due.place) {
        Some(entry) => Picked::Leaves {
            class: due.class,
            entry,
        },
        None => Picked::Nothing,
    }
}
