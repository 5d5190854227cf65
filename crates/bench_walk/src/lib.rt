// Walking over an ASDU's objects as a C function that the host times (host/src/bench.rs): for tests only. It is apart from
// bench_bridge, so that each is compiled as in a program that either walks or reads to a record (decision 50).
#![tactic(auto)]

use apdu::reading;
use asdu::header::MAX_OBJECTS;
use objects::Object;
use objects::values::Value;

// The address, with a counter's value and sequence number: a walk that finds something else gives another sum.
fn weight(object: Object) -> u32 {
    match object.value {
        Value::MItNa1(n, seq_qd) => {
            let counted = n.cast_unsigned().wrapping_add(u32::from(seq_qd.seq));
            object.address.wrapping_add(counted)
        }
        _ => object.address,
    }
}

// Walks from the start to what is no object, and adds the objects up.
#[unsafe(no_mangle)]
pub extern "C" fn gb_walk(f: &[u8]) -> u32 {
    let asdu = reading::asdu_of(f);
    let mut place = asdu_walk::start(asdu);
    let mut sum: u32 = 0;
    for _ in 0..MAX_OBJECTS {
        let Ok(Some(object)) = asdu_walk::object_from(asdu, place) else {
            return sum;
        };
        sum = sum.wrapping_add(weight(object));
        place = place.after();
    }
    sum
}
