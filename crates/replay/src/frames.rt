// The library's answer on a frame.
use crate::asdus;

// How many octets of what is told the fields have, after the 0.
const FIELDS_SIZE: usize = 11;

// An I frame's ASDU is told after it; the others have none.
fn asdu_is(given: &[u8], told: &[u8]) -> bool {
    let mut part = [0; 256];
    let len = bridge_frames::gg_frame_asdu(given, &mut part) as usize;
    if len == 0 {
        return told.is_empty();
    }
    asdus::reads(&part[..len.min(256)], told)
}

// Told is 0, the fields and an I frame's ASDU as `asdus` has it; or the number of the refusal.
pub fn reads(given: &[u8], told: &[u8]) -> bool {
    let Some((told_number, rest)) = told.split_first() else {
        return false;
    };
    let mut fields = [0; FIELDS_SIZE];
    let number = bridge_frames::gg_frame_read(given, &mut fields);
    if u32::from(*told_number) != number {
        return false;
    }
    if number != 0 {
        return rest.is_empty();
    }
    match rest.split_at_checked(FIELDS_SIZE) {
        Some((start, asdu)) => start == fields.as_slice() && asdu_is(given, asdu),
        None => false,
    }
}

// Told is what its reading is written as. It is plain exactly if that is what was given.
pub fn writes(given: &[u8], told: &[u8]) -> bool {
    let mut out = [0; 256];
    let len = bridge_frames::gg_frame_rewrite(given, &mut out);
    let plain = bridge_frames::gg_frame_plain(given) == 0;
    plain == (given == told) && asdus::written_is(&out, len, told)
}
