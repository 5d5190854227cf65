// The record of an ASDU as a list of octets: type, sequence, test, negative, cause, originator, common address (2),
// count; then 16 octets for each of its 127 objects: address (4), type of the value, the value's fields (fields.rt), and 0
// to the end. Each is put as far as the list reaches, and 16 octets of 0 are an object that is blank.
use crate::fields;
use crate::fields::Listed;
use asdu::Asdu;
use objects::kinds::Kind;
use objects::values::Value;
use objects::{Object, blank_object};

const OBJECT_SIZE: usize = 16;

fn put_value(list: &mut &mut [u8], value: Value) {
    match value {
        Value::MSpNa1(siq) => siq.put(list),
        Value::MDpNa1(diq) => diq.put(list),
        Value::MStNa1(vti) => vti.put(list),
        Value::MBoNa1(qds, bits) => (bits, qds).put(list),
        Value::MMeNa1(n, qds) => (n, qds).put(list),
        Value::MMeNb1(n, qds) => (n, qds).put(list),
        Value::MMeNc1(qds, bits) => (bits, qds).put(list),
        Value::MItNa1(n, seq_qd) => (n, seq_qd).put(list),
        Value::MMeNd1(n) => n.put(list),
        Value::MEiNa1(coi) => coi.put(list),
        Value::CIcNa1(n) => n.put(list),
        Value::CCiNa1(n) => n.put(list),
        Value::CRdNa1 => {}
    }
}

fn take_value(list: &mut &[u8], kind: Kind) -> Value {
    match kind {
        Kind::MSpNa1 => Value::MSpNa1(Listed::take(list)),
        Kind::MDpNa1 => Value::MDpNa1(Listed::take(list)),
        Kind::MStNa1 => Value::MStNa1(Listed::take(list)),
        Kind::MBoNa1 => {
            let (bits, qds) = Listed::take(list);
            Value::MBoNa1(qds, bits)
        }
        Kind::MMeNa1 => Value::MMeNa1(Listed::take(list), Listed::take(list)),
        Kind::MMeNb1 => Value::MMeNb1(Listed::take(list), Listed::take(list)),
        Kind::MMeNc1 => {
            let (bits, qds) = Listed::take(list);
            Value::MMeNc1(qds, bits)
        }
        Kind::MItNa1 => Value::MItNa1(Listed::take(list), Listed::take(list)),
        Kind::MMeNd1 => Value::MMeNd1(Listed::take(list)),
        Kind::MEiNa1 => Value::MEiNa1(Listed::take(list)),
        Kind::CIcNa1 => Value::CIcNa1(Listed::take(list)),
        Kind::CCiNa1 => Value::CCiNa1(Listed::take(list)),
        Kind::CRdNa1 => Value::CRdNa1,
    }
}

impl Listed for Object {
    fn put(self, list: &mut &mut [u8]) {
        self.address.put(list);
        u8::from(Kind::from(self.value)).put(list);
        put_value(list, self.value);
    }

    fn take(list: &mut &[u8]) -> Object {
        let address = Listed::take(list);
        let Ok(kind) = Kind::try_from(u8::take(list)) else {
            return blank_object();
        };
        Object {
            address,
            value: take_value(list, kind),
        }
    }
}

// Inline, so that a place's length is known where it is whole.
#[inline(always)]
fn put_object(place: &mut [u8], object: Object) {
    place.fill(0);
    fields::put(place, object);
}

pub fn put_record(out: &mut [u8], asdu: Asdu) {
    let mut rest = out;
    asdu.type_id.put(&mut rest);
    [asdu.sequence, asdu.test, asdu.negative].put(&mut rest);
    [asdu.cause, asdu.originator].put(&mut rest);
    asdu.address.put(&mut rest);
    ((asdu.count % 256) as u8).put(&mut rest);
    let (places, end) = rest.as_chunks_mut::<OBJECT_SIZE>();
    for (place, object) in places.iter_mut().zip(&asdu.objects) {
        put_object(place, *object);
    }
    if let Some(object) = asdu.objects.get(places.len()) {
        put_object(end, *object);
    }
}

pub fn record_in(s: &[u8]) -> Asdu {
    let mut rest = s;
    let type_id = Listed::take(&mut rest);
    let [sequence, test, negative] = <[bool; 3]>::take(&mut rest);
    let [cause, originator] = <[u8; 2]>::take(&mut rest);
    let address = Listed::take(&mut rest);
    let count = u8::take(&mut rest);
    let mut objects = [blank_object(); 127];
    for (object, mut place) in objects.iter_mut().zip(rest.chunks(OBJECT_SIZE)) {
        *object = Listed::take(&mut place);
    }
    Asdu {
        objects,
        count: count as usize,
        type_id,
        sequence,
        test,
        negative,
        cause,
        originator,
        address,
    }
}
