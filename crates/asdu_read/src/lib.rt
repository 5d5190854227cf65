// Reading an ASDU to its record (asdu.rs, `Asdu::parse`).
#![tactic(auto)]

ghost use Rattle.std.specs.Prelude.{◌≡◌};
ghost use Rattle.asdu.specs.Records.{blanks, asdu_of, no_asdu};
ghost use Rattle.asdu.specs.Reading.{answer_at, read_asdu};

use asdu::header::Header;
use asdu::{Asdu, ReadAsdu, checking, header, objects_at};
use elements::refusals::Refusal;
use objects::Object;

#[tactic(auto, unfolding(asdu::specs::Records::blanks, laws::specs::Lists::padded))]
fn blank_objects() -> [Object; 127]
    ensures { result ≡ blanks }
{
    let blank = objects::blank_object();
    [blank; 127]
}

// The record beside a refusal: all 0 and clear.
fn no_record() -> Asdu
    ensures { result ≡ no_asdu }
{
    let objects = blank_objects();
    Asdu {
        objects,
        count: 0,
        type_id: 0,
        sequence: false,
        test: false,
        negative: false,
        cause: 0,
        originator: 0,
        address: 0,
    }
}

// Object i where its address fits three octets, else its refusal.
#[tactic(auto, unfolding(asdu::specs::Reading::answer_at))]
fn object_answer(s: &[u8], h: Header, i: u8) -> Result<Object, Refusal>
    ensures { result ≡ answer_at h s.now i }
{
    let object = objects_at::object_in(s, h.kind, h.sequence, i);
    objects::object_at(object.address, object.value)
}

fn with_objects(h: Header) -> Asdu
    ensures { result ≡ asdu_of h blanks }
{
    let objects = blank_objects();
    let kind = h.kind;
    Asdu {
        objects,
        count: h.count,
        type_id: u8::from(kind),
        sequence: h.sequence,
        test: h.test,
        negative: h.negative,
        cause: h.cause,
        originator: h.originator,
        address: h.address,
    }
}

// The record alone, for a caller that has checked the octets: where reading refuses them, it is all 0 and clear.
// It is filled where it was made, and copied once, to the caller.
pub fn read_record(s: &[u8]) -> Asdu
    ensures { result ≡ (read_asdu s.now).asdu }
{
    let Ok(h) = header::read_header(s) else {
        return no_record();
    };
    let mut asdu = with_objects(h);
    for i in 0..h.count {
        let Ok(object) = object_answer(s, h, i as u8) else {
            return no_record();
        };
        asdu.objects[i] = object;
    }
    asdu
}

#[tactic(auto, unfolding(asdu::specs::Reading::read_asdu))]
pub fn read_asdu(s: &[u8]) -> ReadAsdu
    ensures { result ≡ read_asdu s.now }
{
    let asdu = read_record(s);
    let answer = checking::check_asdu(s);
    ReadAsdu { asdu, answer }
}
