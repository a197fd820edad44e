// What is sound of a group by itself. A record reached from a fresh start always is.
ghost use Rattle.std.specs.Prelude.{◌≡◌};
ghost use Rattle.records.specs.Sound.{sound_group};

use crate::Group;
use quantity::{Item, in_range};

// Whether a group's record is sound.
pub fn sound_group(group: Group) -> bool
    ensures { result ≡ sound_group group }
{
    let used = group.used;
    let class = group.class;
    let residence = group.residence.0;
    let last = group.last.0;
    let time = group.time.0;
    if !used {
        return false;
    }
    if !in_range(Item::Class, class as u64) {
        return false;
    }
    if !in_range(Item::Residence, residence) {
        return false;
    }
    if !in_range(Item::Arrival, last) {
        return false;
    }
    time <= last + residence
}
