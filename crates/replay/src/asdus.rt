// The library's answer on an ASDU.
use bridge::asdus;

// The record's header and its own objects.
fn record_is(record: &[u8; 2048], told: &[u8]) -> bool {
    let end = 9 + usize::from(record[8]) * 16;
    &record[..end.min(2048)] == told
}

// Told is 0 and the record, or the number of the refusal.
pub fn reads(given: &[u8], told: &[u8]) -> bool {
    let Some((told_number, rest)) = told.split_first() else {
        return false;
    };
    let mut record = [0; 2048];
    let number = asdus::gg_asdu_read(given, &mut record);
    if asdus::gg_asdu_check(given) != number || u32::from(*told_number) != number {
        return false;
    }
    if number == 0 {
        record_is(&record, rest)
    } else {
        rest.is_empty()
    }
}

// The first octets written are what is told. A refusal has a number above any length.
pub(crate) fn written_is(out: &[u8; 256], len: u32, told: &[u8]) -> bool {
    &out[..(len as usize).min(256)] == told
}

// Told is what its reading is written as. It is plain exactly if that is what was given. Kept beside `writes` of frames.rt: one for
// both would take the two calls and have two callers.
pub fn writes(given: &[u8], told: &[u8]) -> bool {
    let mut out = [0; 256];
    let len = asdus::gg_asdu_rewrite(given, &mut out);
    let plain = asdus::gg_asdu_plain(given) == 0;
    plain == (given == told) && written_is(&out, len, told)
}
