// The places of the classes: how a class stands in them, an entry put last into a class, and one taken out of it.
// What an entry holds is not tested here, and which entry leaves is the caller's business.
#![tactic(auto)]

ghost use Rattle.std.specs.Prelude.{◌≡◌, ◌<◌};
ghost use Rattle.places.specs.Queue.{all_places, entry_at};
ghost use Rattle.places.specs.Places.{put_gives, take_gives};

use quantity::{Bits, Refusal, Ticks};

// Classes are 0 up to this one.
pub const LAST_CLASS: u8 = quantity::MOST_CLASS as u8;

// Places of one class.
pub const PLACES: usize = 32;

// The fill of a class that has no free place.
pub const FULL: u8 = PLACES as u8;

// The entries of class c stand from place 32·c on, in order of entering; as many as its fill says.
// Four arrays and not one of entries: `ReachedIsSound` and the other theorems of `waiting` speak of these fields.
#[derive(Clone, Copy)]
pub struct Waiting {
    pub times: [u64; 256],
    pub handles: [u32; 256],
    pub bits: [u64; 256],
    pub fills: [u8; 8],
}

// A frame that waits: its handle, its eligibility time and its charged bits.
#[derive(Clone, Copy)]
pub struct Entry {
    pub handle: u32,
    pub time: Ticks,
    pub bits: Bits,
}

// What a pick answers. Not an Option within a Result: document 01 has three answers, each with a number of its own.
#[derive(Clone, Copy)]
pub enum Picked {
    // The entry that leaves, and its class.
    Leaves { class: u8, entry: Entry },
    // No entry is eligible.
    Nothing,
    Refused(Refusal),
}

// What a call on a whole `Waiting` answers, and the places after it.
#[derive(Clone, Copy)]
pub struct After<A> {
    pub answer: A,
    pub waiting: Waiting,
}

impl Waiting {
    // Puts an entry last into a class, where it has room, and says whether it did, as `put_gives` does; what the entry holds
    // is not tested.
    pub fn put(&mut self, class: u8, entry: Entry) -> bool
        ensures { record { placed = result; waiting = self.new } ≡ put_gives self.old class entry }
    {
        if class > LAST_CLASS {
            return false;
        }
        let c = class as usize;
        let n = self.fills[c];
        if n >= FULL {
            return false;
        }
        let at = c * PLACES + n as usize;
        self.times[at] = entry.time.0;
        self.handles[at] = entry.handle;
        self.bits[at] = entry.bits.0;
        self.fills[c] = n + 1;
        true
    }

    // The entry that stands at a place of the arrays.
    fn entry_at(&self, at: usize) -> Entry
        requires { at < all_places }
        ensures { result ≡ entry_at self.now at }
    {
        Entry {
            handle: self.handles[at],
            time: Ticks(self.times[at]),
            bits: Bits(self.bits[at]),
        }
    }

    // Takes out the entry at a place of a class, where there is one; the entries after it move one place down.
    pub fn take_out(&mut self, class: u8, place: usize) -> Option<Entry>
        ensures { record { left = result; waiting = self.new } ≡ take_gives self.old class place }
    {
        if class > LAST_CLASS {
            return None;
        }
        let c = class as usize;
        let n = self.fills[c];
        if n > FULL {
            return None;
        }
        if place >= n as usize {
            return None;
        }
        let at = c * PLACES + place;
        let end = c * PLACES + n as usize;
        let entry = self.entry_at(at);
        self.times.copy_within(at + 1..end, at);
        self.handles.copy_within(at + 1..end, at);
        self.bits.copy_within(at + 1..end, at);
        self.fills[c] = n - 1;
        Some(entry)
    }
}
