// Plain form of an ASDU: whether writing its reading gives the same octets, found in place.
#![tactic(auto)]

ghost use Rattle.std.specs.Prelude.{◌≡◌, ◌≤◌};
ghost use Rattle.objects.specs.Kinds.{form_of};
ghost use Rattle.asdu.specs.Plain.{has_reserved, plain_form, plain_objects, plain_answer};

use asdu::header::Header;
use asdu::{Form, checking, header};
use elements::refusals::Refusal;
use objects::kinds::Kind;

// Whether a kind's elements have reserved bits at all: if not, no element is looked at.
fn has_reserved(kind: Kind) -> bool
    ensures { result ≡ has_reserved kind }
{
    !matches!(
        kind,
        Kind::MItNa1 | Kind::MMeNd1 | Kind::MEiNa1 | Kind::CIcNa1 | Kind::CCiNa1 | Kind::CRdNa1
    )
}

// The reserved bits of an element lie in its last octet: 0E hex of SIQ and QDS, 0C of DIQ.
fn element_is_plain(s: &[u8], kind: Kind) -> bool
    ensures { result ≡ plain_form (form_of kind) s.now }
{
    match kind {
        Kind::MSpNa1 => laws::octet_at(s, 0) / 2 % 8 == 0,
        Kind::MDpNa1 => laws::octet_at(s, 0) / 4 % 4 == 0,
        Kind::MStNa1 => laws::octet_at(s, 1) / 2 % 8 == 0,
        Kind::MBoNa1 => laws::octet_at(s, 4) / 2 % 8 == 0,
        Kind::MMeNa1 => laws::octet_at(s, 2) / 2 % 8 == 0,
        Kind::MMeNb1 => laws::octet_at(s, 2) / 2 % 8 == 0,
        Kind::MMeNc1 => laws::octet_at(s, 4) / 2 % 8 == 0,
        _ => true,
    }
}

fn objects_are_plain(s: &[u8], h: Header) -> bool
    requires { h.count ≤ 127 }
    ensures { result ≡ plain_objects h s.now }
{
    let kind = h.kind;
    if !has_reserved(kind) {
        return true;
    }
    let step = header::step_of(kind, h.sequence);
    for i in 0..h.count {
        if !element_is_plain(laws::part_from(s, 9 + i * step), kind) {
            return false;
        }
    }
    true
}

#[tactic(auto, unfolding(asdu::specs::Plain::plain_answer))]
pub fn plain_asdu(s: &[u8]) -> Result<Form, Refusal>
    ensures { result ≡ plain_answer s.now }
{
    let h = checking::checked_header(s)?;
    if objects_are_plain(s, h) {
        return Ok(Form::Plain);
    }
    Ok(Form::Reserved)
}
