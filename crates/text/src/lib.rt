// Text in lent bytes: a text or a decimal number is put at a place, where it fits, and the next place comes
// back; and a decimal number is read from lent bytes. The programs' lines are made of these. No file and no record
// lives here.
#![tactic(auto)]

ghost use Rattle.std.specs.Prelude.{◌≡◌, [], ◌∷◌, ◌+◌, ◌-◌, ◌*◌, ◌≤◌, leb, min, cond, Some, None, length};
ghost use Rattle.std.proofs.lemmas.List.Edits.{sets};
ghost use Rattle.text.specs.Decimal.{last_digits, digit_count, decimal};
ghost use Rattle.text.specs.Places.{placed};
ghost use Rattle.text.specs.Puts.{puts};
ghost use Rattle.text.specs.Numeral.{most, is_digit, numeral_of};

// Whether so many bytes, from a place on, have so much room.
pub fn has_room(len: usize, at: usize, room: usize) -> bool
    ensures { result ≡ leb (at + room) len }
{
    at <= len && room <= len - at
}

// How many digits a number has.
fn digit_count(n: u64) -> usize
    ensures { (result ≡ digit_count n) × (result ≤ 20) }
{
    let mut bound: u64 = 10;
    for k in 1..19 {
        if n < bound {
            return k;
        }
        bound *= 10;
    }
    // 10^20 is more than a number of 64 bits can be.
    if n < bound { 19 } else { 20 }
}

// Puts the last k digits of a number before a place, from the last one backwards.
fn put_digits(out: &mut [u8], end: usize, k: usize, n: u64)
    requires { (k ≤ end) × (end ≤ length out.old) }
    ensures { out.new ≡ sets out.old (end - k) (last_digits k n) }
{
    let mut rest = n;
    for j in 0..k {
        out[end - 1 - j] = b'0' + (rest % 10) as u8;
        rest /= 10;
    }
}

// The bytes and the place stay two: where a struct lends them, a caller's proof does not close, since it knows the bytes in
// the end only by names that the kit keeps for itself. And what is put is no `Display`: a text is put whole or not at all,
// and the next place comes back (`placed`); what is read is clipped and not refused (`numeral_of`).

// Puts a number in decimal at a place.
pub fn put_decimal(out: &mut [u8], at: usize, n: u64) -> usize
    ensures { record { next = result; bytes = out.new } ≡ placed out.old at (decimal n) }
{
    let k = digit_count(n);
    if !has_room(out.len(), at, k) {
        return at;
    }
    let end = at + k;
    put_digits(out, end, k, n);
    end
}

// Puts a text at a place.
#[tactic(auto, using(crate::proofs::Stores::no_room, crate::proofs::Stores::copied))]
pub fn put_text(out: &mut [u8], at: usize, text: &[u8]) -> usize
    ensures { record { next = result; bytes = out.new } ≡ placed out.old at text.now }
{
    if !has_room(out.len(), at, text.len()) {
        return at;
    }
    let end = at + text.len();
    out[at..end].copy_from_slice(text);
    end
}

// A word and a number after it.
pub fn put_field(out: &mut [u8], at: usize, word: &[u8], n: u64) -> usize
    ensures { record { next = result; bytes = out.new } ≡ puts out.old at (word.now ∷ decimal n ∷ []) }
{
    let after = put_text(out, at, word);
    put_decimal(out, after, n)
}

// The digit that a character is, if it is one.
#[tactic(auto, unfolding(crate::specs::Numeral::is_digit))]
fn digit_of(byte: u8) -> Option<u8>
    ensures { result ≡ cond (is_digit byte) (Some (byte - 48)) None }
{
    match byte {
        b'0'..=b'9' => Some(byte - b'0'),
        _ => None,
    }
}

// The number with one digit more at its end, as far as 64 bits hold it.
fn with_digit(n: u64, digit: u8) -> u64
    ensures { result ≡ min (n * 10 + digit) most }
{
    n.saturating_mul(10).saturating_add(u64::from(digit))
}

// The decimal number that lent bytes are, if they are one: digits alone, and at least one. A number above the largest of
// 64 bits is taken as that one.
pub fn number_in(bytes: &[u8]) -> Option<u64>
    ensures { result ≡ numeral_of bytes.now }
{
    if bytes.is_empty() {
        return None;
    }
    let mut n = 0;
    for &byte in bytes {
        n = with_digit(n, digit_of(byte)?);
    }
    Some(n)
}
