// The objects of an ASDU, by index.
ghost use Rattle.std.specs.Prelude.{◌≡◌, ◌+◌, ◌≤◌, drop};
ghost use Rattle.laws.specs.Choice.{pick};
ghost use Rattle.laws.specs.Numbers.{le_of};
ghost use Rattle.asdu.specs.Reading.{object_in};

use crate::header;
use objects::kinds::Kind;
use objects::{Object, values};

// The address of object i: in a sequence the first one and the index, else its own.
fn address_at(s: &[u8], sequence: bool, i: u8, at: usize) -> u32
    requires { at ≤ 2040 }
    ensures { result ≡ pick sequence (le_of 3 (drop 6 s.now) + i) (le_of 3 (drop (6 + at) s.now)) }
{
    if sequence {
        return laws::le::<3>(s, 6) + (i as u32);
    }
    laws::le::<3>(s, 6 + at)
}

// In both layouts element 0 begins at octet 9, after the header and the first address, and element i comes i steps later.
pub fn object_in(s: &[u8], kind: Kind, sequence: bool, i: u8) -> Object
    ensures { result ≡ object_in kind sequence s.now i }
{
    let at = (i as usize) * header::step_of(kind, sequence);
    let address = address_at(s, sequence, i, at);
    let value = values::read_element(laws::part_from(s, 9 + at), kind);
    Object { address, value }
}
