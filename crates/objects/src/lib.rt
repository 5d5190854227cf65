// Information objects of IEC 60870-5-101, for the carried types: an address of three octets and an element.
#![tactic(auto)]

ghost use Rattle.std.specs.Prelude.{◌≡◌};
ghost use Rattle.std.proofs.lemmas.List.Edits.{sets};
ghost use Rattle.elements.specs.Refusals.{answer};
ghost use Rattle.objects.specs.Objects.{blank, object_of, object_octets, object_answer, kind_refusal, address_refusal, object_refusal};

pub mod kinds;
pub mod values;

use elements::information_elements::{Siq, Spi};
use elements::quality_descriptors::SeqQd;
use elements::refusals::Refusal;
use kinds::Kind;
use values::Value;

// An address has three octets.
pub const MAX_ADDRESS: u32 = 16_777_215;

#[derive(Clone, Copy, Debug, PartialEq, Eq)]
pub struct Object {
    pub address: u32,
    pub value: Value,
}

// Stands past the count of a record: address 0 and a clear SIQ. The value is a counter first, which fills all of its
// memory: so each octet of a blank object is 0 there, and 127 of them are one fill of memory (decision 39).
pub fn blank_object() -> Object
    ensures { result ≡ blank }
{
    let siq = Siq {
        iv: false,
        nt: false,
        sb: false,
        bl: false,
        spi: Spi::Off,
    };
    let sqd = SeqQd {
        iv: false,
        ca: false,
        cy: false,
        seq: 0,
    };
    let mut value = Value::MItNa1(0, sqd);
    value = Value::MSpNa1(siq);
    Object { address: 0, value }
}

// An object with its own address, as the plain layout has it.
#[tactic(auto, unfolding(crate::specs::Objects::object_of))]
pub fn read_object(s: &[u8], kind: Kind) -> Object
    ensures { result ≡ object_of kind s.now }
{
    let value = values::read_element(laws::part_from(s, 3), kind);
    Object {
        address: laws::le::<3>(s, 0),
        value,
    }
}

pub fn put_object(out: &mut [u8], object: Object)
    ensures { out.new ≡ sets out.old 0 (object_octets object) }
{
    let value = object.value;
    laws::put_le::<3>(out, 0, object.address);
    if 3 <= out.len() {
        values::put_element(&mut out[3..], value);
    }
}

// A read object, or 14 where its address does not fit three octets.
#[tactic(auto, unfolding(crate::specs::Objects::object_answer, elements::specs::Refusals::refusal))]
pub fn object_at(address: u32, value: Value) -> Result<Object, Refusal>
    ensures { result ≡ object_answer address value }
{
    if MAX_ADDRESS < address {
        return Err(Refusal::WrongAddress);
    }
    Ok(Object { address, value })
}

#[tactic(auto, unfolding(crate::specs::Objects::kind_refusal, elements::specs::Refusals::refusal))]
fn check_kind(kind: Kind, value: Value) -> Result<(), Refusal>
    ensures { result ≡ answer (kind_refusal kind value) tt }
{
    if Kind::from(value) == kind {
        return Ok(());
    }
    Err(Refusal::WrongKind)
}

#[tactic(auto, unfolding(crate::specs::Objects::address_refusal, elements::specs::Refusals::refusal))]
fn check_address(sequence: bool, first: u32, index: usize, address: u32) -> Result<(), Refusal>
    ensures { result ≡ answer (address_refusal sequence first index address) tt }
{
    let follows = first <= address && (address - first) as usize == index;
    if address <= MAX_ADDRESS && (!sequence || follows) {
        Ok(())
    } else {
        Err(Refusal::WrongAddress)
    }
}

// What is refused of object `index` of a record whose first object has the address `first`: 16, 14, 15.
#[tactic(auto, unfolding(crate::specs::Objects::object_refusal))]
pub fn check_object(
    kind: Kind,
    sequence: bool,
    first: u32,
    index: usize,
    object: Object,
) -> Result<(), Refusal>
    ensures { result ≡ answer (object_refusal kind sequence first index object) tt }
{
    let value = object.value;
    check_kind(kind, value)?;
    check_address(sequence, first, index, object.address)?;
    values::check_value(value)
}
