// Writing an ASDU into a lent output (asdu.rs, `Asdu::to_bytes`).
#![tactic(auto)]

ghost use Rattle.std.specs.Prelude.{◌≡◌, ◌+◌, ◌≤◌, [], ◌∷◌, length, IfOk};
ghost use Rattle.std.proofs.lemmas.List.Edits.{sets};
ghost use Rattle.laws.specs.Bits.{num, octet};
ghost use Rattle.elements.specs.Refusals.{answer};
ghost use Rattle.asdu.specs.Header.{count_layout, cause_layout};
ghost use Rattle.asdu.specs.Writing.{first_refusal, shape_refusal, size_refusal, write_refusal, header_octets, address_octets, body_octets, objects_octets, asdu_octets, write_answer, written};
ghost use Rattle.asdu.specs.Puts.{Put};

use asdu::{Asdu, header};
use elements::refusals::Refusal;
use objects::kinds::Kind;
use objects::{Object, kinds, values};

// Kept beside `check_layout` of asdu: it refuses by other rows in another order, and shares one line.
#[tactic(auto, unfolding(asdu::specs::Writing::shape_refusal, elements::specs::Refusals::refusal))]
fn check_shape(kind: Kind, sequence: bool, n: usize) -> Result<(), Refusal>
    ensures { result ≡ answer (shape_refusal kind sequence n) tt }
{
    if header::MAX_OBJECTS < n {
        return Err(Refusal::LayoutMismatch);
    }
    if sequence && (n == 0 || kinds::size_of(kind) == 0) {
        return Err(Refusal::EmptySequence);
    }
    Ok(())
}

// What is refused of a record's own objects, in order.
#[tactic(auto, using(crate::proofs::Rows::refusal_more, crate::proofs::Rows::refusal_end))]
fn check_objects(own: &[Object], kind: Kind, sequence: bool, first: u32) -> Result<(), Refusal>
    ensures { result ≡ answer (first_refusal kind sequence first 0 own.now) tt }
{
    for (i, object) in own.iter().enumerate() {
        objects::check_object(kind, sequence, first, i, *object)?;
    }
    Ok(())
}

#[tactic(auto, unfolding(asdu::specs::Writing::size_refusal, elements::specs::Refusals::refusal))]
fn check_size(n: usize, room: usize) -> Result<(), Refusal>
    ensures { result ≡ answer (size_refusal n room) tt }
{
    if header::MAX_SIZE < n {
        return Err(Refusal::AsduTooLong);
    }
    if room < n {
        return Err(Refusal::OutputTooShort);
    }
    Ok(())
}

// What writing into an output of `room` octets refuses.
#[tactic(auto, using(crate::proofs::Places::shape_small), unfolding(asdu::specs::Writing::write_refusal, asdu::specs::Writing::write_refusal_by, elements::specs::Refusals::refusal))]
pub fn check_write(a: &Asdu, room: usize) -> Result<(), Refusal>
    ensures { result ≡ answer (write_refusal a.now room) tt }
{
    if !header::cause_listed(a.cause) {
        return Err(Refusal::CauseNotListed);
    }
    let kind = Kind::try_from(a.type_id)?;
    check_shape(kind, a.sequence, a.count)?;
    let own = &a.objects[..a.count];
    check_objects(own, kind, a.sequence, a.objects[0].address)?;
    check_size(header::needed_len(kind, a.sequence, a.count as u8), room)
}

fn count_octet(a: &Asdu) -> u8
    requires { a.now.count ≤ 127 }
    ensures { result ≡ octet count_layout (a.now.count ∷ num a.now.sequence ∷ []) }
{
    (a.count as u8) + laws::bit(a.sequence) * 128
}

fn cause_octet(a: &Asdu) -> u8
    requires { a.now.cause ≤ 63 }
    ensures { result ≡ octet cause_layout (a.now.cause ∷ num a.now.negative ∷ num a.now.test ∷ []) }
{
    a.cause + laws::bit(a.negative) * 64 + laws::bit(a.test) * 128
}

#[tactic(auto, unfolding(asdu::specs::Writing::header_octets))]
fn put_header(out: &mut [u8], a: &Asdu)
    requires { (a.now.count ≤ 127) × (a.now.cause ≤ 63) }
    ensures { out.new ≡ sets out.old 0 (header_octets a.now) }
{
    laws::put_octet(out, 0, a.type_id);
    laws::put_octet(out, 1, count_octet(a));
    laws::put_octet(out, 2, cause_octet(a));
    laws::put_octet(out, 3, a.originator);
    laws::put_le::<2>(out, 4, a.address as u32);
}

// The one address of a sequence; the answer is the place of the first object.
#[tactic(auto, unfolding(asdu::specs::Writing::address_octets, laws::specs::Numbers::le_octets))]
fn put_first(out: &mut [u8], sequence: bool, first: u32) -> usize
    ensures { Put out.old 6 (address_octets sequence first) result out.new }
{
    if sequence {
        laws::put_le::<3>(out, 6, first);
        return 9;
    }
    6
}

// One object from a place on; the answer is the place after it.
fn put_body(out: &mut [u8], at: usize, sequence: bool, object: Object) -> usize
    requires { at + length (body_octets sequence object) ≤ length out.old }
    ensures { Put out.old at (body_octets sequence object) result out.new }
{
    let value = object.value;
    let size = kinds::size_of(Kind::from(value));
    if sequence {
        values::put_element(&mut out[at..], value);
        return at + size;
    }
    objects::put_object(&mut out[at..], object);
    at + 3 + size
}

#[tactic(auto, using(crate::proofs::Rows::octets_more, crate::proofs::Rows::octets_long, crate::proofs::Rows::octets_end, crate::proofs::Places::put_long, laws::proofs::Lists::sets_append))]
fn put_bodies(out: &mut [u8], from: usize, sequence: bool, own: &[Object]) -> usize
    requires { from + length (objects_octets sequence own.now) ≤ length out.old }
    ensures { Put out.old from (objects_octets sequence own.now) result out.new }
{
    let mut at = from;
    for object in own {
        at = put_body(out, at, sequence, *object);
    }
    at
}

#[tactic(auto, using(crate::proofs::Places::fields_fit, crate::proofs::Places::bodies_room, crate::proofs::Places::room_enough, crate::proofs::Places::asdu_small, crate::proofs::Places::put_long, crate::proofs::Places::parts_stored), unfolding(asdu::specs::Writing::write_answer, asdu::specs::Writing::written))]
pub fn write_asdu(a: &Asdu, out: &mut [u8]) -> Result<usize, Refusal>
    ensures value { result ≡ write_answer a.now (length out.old) }
    ensures out_after { out.new ≡ written a.now out.old }
    ensures bounds { IfOk result (λ n. (n ≤ 249) × (n ≤ length out.old)) }
{
    check_write(a, out.len())?;
    put_header(out, a);
    let from = put_first(out, a.sequence, a.objects[0].address);
    Ok(put_bodies(out, from, a.sequence, &a.objects[..a.count]))
}
