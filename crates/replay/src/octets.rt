// The library's answer on an element or a number, by the letter of its kind: a small letter reads octets, a capital writes
// them.
use bridge_records::fields;

fn accepted(refusal: u8) -> Option<()> {
    if refusal == 0 { Some(()) } else { None }
}

// None where it is refused, or no kind has that letter.
fn answer(kind: u8, given: &[u8]) -> Option<[u8; 8]> {
    let octet = given.first().copied().unwrap_or(0);
    let mut out = [0; 8];
    match kind {
        b'q' => bridge::gg_read_qds(octet, &mut out),
        b's' => bridge::gg_read_siq(octet, &mut out),
        b'd' => bridge::gg_read_diq(octet, &mut out),
        b'c' => bridge::gg_read_seq_qd(octet, &mut out),
        b'i' => bridge::gg_read_coi(octet, &mut out),
        // The value of a step position stands after its marks.
        b'v' => {
            let value = bridge::gg_read_vti(given, &mut out);
            fields::put(&mut out[6..], value);
        }
        b'h' => fields::put(&mut out, bridge::gg_read_i16(given)),
        b'w' => fields::put(&mut out, bridge::gg_read_i32(given)),
        b'b' => fields::put(&mut out, bridge::gg_read_u32(given)),
        b'Q' => out[0] = bridge::gg_write_qds(given),
        b'S' => out[0] = bridge::gg_write_siq(given),
        b'D' => out[0] = bridge::gg_write_diq(given),
        b'C' => accepted(bridge::gg_write_seq_qd(given, &mut out))?,
        b'I' => accepted(bridge::gg_write_coi(given, &mut out))?,
        b'V' => {
            let value = fields::take(given.get(6..)?);
            accepted(bridge::gg_write_vti(value, given, &mut out))?;
        }
        b'H' => bridge::gg_write_i16(fields::take(given), &mut out),
        b'W' => bridge::gg_write_i32(fields::take(given), &mut out),
        b'B' => bridge::gg_write_u32(fields::take(given), &mut out),
        _ => return None,
    }
    Some(out)
}

pub fn agrees(kind: u8, given: &[u8], told: &[u8]) -> bool {
    answer(kind, given).is_some_and(|out| out.as_slice() == told)
}
