// The writer of one record of the table file.
// The records, their marks and their sizes are `tablefile`'s. Output lives with the programs.
#![tactic(auto)]

ghost use Rattle.std.specs.Prelude.{◌≡◌, ◌+◌, ◌≤◌, length};
ghost use Rattle.std.proofs.lemmas.List.Edits.{sets};
ghost use Rattle.tablefile.specs.Layout.{kind_of, bytes_of, size};
ghost use Rattle.writer.specs.Writer.{write_to};

use quantity::Refusal;
use tablefile::Record;

// A field's bytes stored from a place on.
fn put<const N: usize>(part: &mut [u8], at: usize, field: [u8; N])
    requires { at + N ≤ length part.old }
    ensures { part.new ≡ sets part.old at field.entry }
{
    part[at..at + N].copy_from_slice(&field);
}

// A record at the front of a part that has room for it: its mark, then its fields.
fn put_record(given: Record, part: &mut [u8])
    requires { size (kind_of given) ≤ length part.old }
    ensures { part.new ≡ sets part.old 0 (bytes_of given) }
{
    put(part, 0, tablefile::letters(given));
    match given {
        Record::Group {
            group,
            class,
            residence,
        } => {
            put(part, 2, [group]);
            put(part, 3, [class]);
            put(part, 4, residence.0.to_be_bytes());
        }
        Record::GroupDefault { group, class } => {
            put(part, 2, [group]);
            put(part, 3, [class]);
        }
        Record::Stream {
            stream,
            group,
            rate,
            burst,
        } => {
            put(part, 2, [stream]);
            put(part, 3, [group]);
            put(part, 4, rate.0.to_be_bytes());
            put(part, 12, burst.to_be_bytes());
        }
        Record::Frame {
            stream,
            octets,
            arrival,
        } => {
            put(part, 2, [stream]);
            put(part, 3, octets.to_be_bytes());
            put(part, 5, arrival.0.to_be_bytes());
        }
    }
}

// The bytes that a record has, its mark among them.
fn size_of(given: Record) -> usize
    ensures { result ≡ size (kind_of given) }
{
    match given {
        Record::Group { .. } => tablefile::GROUP_BYTES,
        Record::GroupDefault { .. } => tablefile::GROUP_DEFAULT_BYTES,
        Record::Stream { .. } => tablefile::STREAM_BYTES,
        Record::Frame { .. } => tablefile::FRAME_BYTES,
    }
}

// Writes a record to the front of the lent part, and gives the number of its bytes. A part shorter than the record is refused, and stays as it is.
pub fn write(given: Record, part: &mut [u8]) -> Result<usize, Refusal>
    ensures { record { answer = result; part = part.new } ≡ write_to given part.old }
{
    let size = size_of(given);
    if part.len() < size {
        return Err(Refusal::NoRoom);
    }
    put_record(given, part);
    Ok(size)
}
