// Input that comes in parts, for every program that reads one: what of it stands in a lent buffer, what a reading
// brought, and what comes after a turn; and what a whole session of turns and readings gives (specs/Sessions).
// What a turn does with the bytes is the program's own room's. To read and to write is `console`'s.
#![tactic(auto)]

ghost use Rattle.std.specs.Prelude.{◌≡◌, cond, ◌≤◌, length};
ghost use Rattle.intake.specs.declared.Told.TheVariants.{Ended, Failed};
ghost use Rattle.intake.specs.Holding.{nothing_held, is_within, saying, told_unread, came_in, brought_kept, kept_for};

// What the last reading said of the input.
#[derive(Clone, Copy)]
pub enum Told {
    // There may be more of it.
    More,
    // It has ended.
    Ended,
    // It could not be read.
    Failed,
}

// What comes after a turn, once its bytes are written.
#[derive(Clone, Copy)]
pub enum Next {
    // A turn more, with the same input.
    GoesOn,
    // A reading, behind the bytes that are kept, and then a turn.
    Reads,
    // Nothing: all is done.
    Ends,
    // Nothing: it could not be done to the end.
    Fails,
}

// Why a reading has brought nothing.
#[derive(Clone, Copy)]
pub enum Unread {
    // It only would have to wait.
    Waits,
    // It failed.
    Fails,
}

// What of the input stands in the buffer and is still to be used: from the one place up to the other.
#[derive(Clone, Copy)]
pub struct Held {
    pub place: usize,
    pub filled: usize,
    pub told: Told,
}

// What a turn did: so many bytes at the front of the output buffer are to be written. S is where the program stands.
#[derive(Clone, Copy)]
pub struct Turned<S> {
    pub standing: S,
    pub written: usize,
    pub next: Next,
}

// A reading that only would have to wait brought nothing, and there may be more.
#[tactic(auto, unfolding(crate::specs::Holding::told_unread))]
fn told_by_failure(why: Unread) -> Told
    ensures { result ≡ told_unread why }
{
    match why {
        Unread::Waits => Told::More,
        Unread::Fails => Told::Failed,
    }
}

// None is the end; but where there was no room to read into, it says nothing.
fn told_by_none(room: bool) -> Told
    ensures { result ≡ cond room Ended Failed }
{
    if room { Told::Ended } else { Told::Failed }
}

impl Held {
    // Nothing was read yet.
    #[tactic(auto, unfolding(crate::specs::Holding::nothing_held))]
    pub fn nothing() -> Held
        ensures { result ≡ nothing_held }
    {
        Held {
            place: 0,
            filled: 0,
            told: Told::More,
        }
    }

    // Whether the bytes that are held are in a buffer of so many bytes.
    #[tactic(auto, unfolding(crate::specs::Holding::is_within))]
    pub fn is_within(self, size: usize) -> bool
        ensures { result ≡ is_within self size }
    {
        self.place <= self.filled && self.filled <= size
    }

    // The same bytes, and what a reading said.
    #[tactic(auto, unfolding(crate::specs::Holding::saying))]
    fn saying(self, told: Told) -> Held
        ensures { result ≡ saying self told }
    {
        Held { told, ..self }
    }

    // What is held after a reading behind the bytes that were: how many came, or why none did.
    pub fn after_reading(self, got: Result<usize, Unread>, size: usize) -> Held
        ensures { result ≡ came_in self got size }
    {
        match got {
            Ok(0) => self.saying(told_by_none(self.filled < size)),
            Ok(n) => Held {
                filled: self.filled + n.min(size.saturating_sub(self.filled)),
                ..self.saying(Told::More)
            },
            Err(why) => self.saying(told_by_failure(why)),
        }
    }

    // Moves the bytes that are held to the buffer's front.
    fn keep(self, bytes: &mut [u8]) -> Held
        requires { (self.place ≤ self.filled) × (self.filled ≤ length bytes.old) }
        ensures { record { held = result; bytes = bytes.new } ≡ brought_kept self bytes.old }
    {
        bytes.copy_within(self.place..self.filled, 0);
        Held {
            place: 0,
            filled: self.filled - self.place,
            ..self
        }
    }

    // Makes room for a reading where one comes next: what is held moves to the front. Else it stays where it is.
    pub fn keep_for(self, bytes: &mut [u8], next: Next) -> Held
        ensures { record { held = result; bytes = bytes.new } ≡ kept_for next self bytes.old }
    {
        if !self.is_within(bytes.len()) {
            return self;
        }
        match next {
            Next::Reads => self.keep(bytes),
            Next::GoesOn | Next::Ends | Next::Fails => self,
        }
    }
}
