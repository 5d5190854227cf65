// An ASDU walked over: its record with the objects that the walk finds, and as many as it finds for the count.
use bridge_records::{answers, records};

// The header is reading's; every object is the walk's, and a blank one where it finds none.
pub fn gg_asdu_walk(s: &[u8], record: &mut [u8]) -> u32 {
    let mut asdu = asdu_read::read_record(s);
    let mut place = asdu_walk::start(s);
    let mut count = 0;
    for (i, object) in asdu.objects.iter_mut().enumerate() {
        if let Ok(Some(found)) = asdu_walk::object_from(s, place) {
            *object = found;
            count = i + 1;
        } else {
            *object = objects::blank_object();
        }
        place = place.after();
    }
    asdu.count = count;
    records::put_record(record, asdu);
    answers::number(asdu_walk::object_from(s, place))
}
