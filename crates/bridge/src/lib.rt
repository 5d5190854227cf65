// The proved library for the programs that test it: host/ links these functions as `bridge_c` hands them on to C, and replay
// calls them. An element is the list of its fields (bridge_records, fields.rt). What may be refused is
// written to `out`, with the number of the refusal as the result, 0 for none. A list that is too short reads as 0 and takes
// nothing past its end, so no call can fail. Frames are in `bridge_frames`. Kept one for each type: C calls them by name.
#![tactic(auto)]

pub mod asdus;
pub mod walks;

use bridge_records::fields;
use bridge_records::fields::Listed;
use elements::information_elements::{Coi, Diq, Siq, Vti};
use elements::numbers::Signed;
use elements::quality_descriptors::{Qds, SeqQd};
use elements::refusals::Refusal;

fn put_answer<L: Listed>(out: &mut [u8], answer: Result<L, Refusal>) -> u8 {
    match answer {
        Ok(octets) => {
            fields::put(out, octets);
            0
        }
        Err(refusal) => u8::from(refusal),
    }
}

pub fn gg_read_qds(octet: u8, out: &mut [u8]) {
    fields::put(out, Qds::from_byte(octet));
}

pub fn gg_write_qds(s: &[u8]) -> u8 {
    fields::take::<Qds>(s).to_byte()
}

pub fn gg_read_siq(octet: u8, out: &mut [u8]) {
    fields::put(out, Siq::from_byte(octet));
}

pub fn gg_write_siq(s: &[u8]) -> u8 {
    fields::take::<Siq>(s).to_byte()
}

pub fn gg_read_diq(octet: u8, out: &mut [u8]) {
    fields::put(out, Diq::from_byte(octet));
}

pub fn gg_write_diq(s: &[u8]) -> u8 {
    fields::take::<Diq>(s).to_byte()
}

pub fn gg_read_seq_qd(octet: u8, out: &mut [u8]) {
    fields::put(out, SeqQd::from_byte(octet));
}

pub fn gg_write_seq_qd(s: &[u8], out: &mut [u8]) -> u8 {
    put_answer(out, fields::take::<SeqQd>(s).to_byte())
}

pub fn gg_read_coi(octet: u8, out: &mut [u8]) {
    fields::put(out, Coi::from_byte(octet));
}

pub fn gg_write_coi(s: &[u8], out: &mut [u8]) -> u8 {
    put_answer(out, fields::take::<Coi>(s).to_byte())
}

// The value is the result; whether it is transient stands before the marks of the quality.
pub fn gg_read_vti(octets: &[u8], out: &mut [u8]) -> i8 {
    let vti = Vti::from_byte(laws::octet_at(octets, 0), laws::octet_at(octets, 1));
    fields::put(out, (vti.transient, vti.qds));
    vti.value
}

pub fn gg_write_vti(value: i8, s: &[u8], out: &mut [u8]) -> u8 {
    let (transient, qds) = fields::take(s);
    let vti = Vti {
        value,
        transient,
        qds,
    };
    put_answer(out, vti.to_bytes())
}

pub fn gg_read_i16(octets: &[u8]) -> i16 {
    i16::from_bits(laws::le::<2>(octets, 0) as u16)
}

pub fn gg_write_i16(value: i16, out: &mut [u8]) {
    laws::put_le::<2>(out, 0, value.to_bits() as u32);
}

pub fn gg_read_i32(octets: &[u8]) -> i32 {
    i32::from_bits(laws::le::<4>(octets, 0))
}

pub fn gg_write_i32(value: i32, out: &mut [u8]) {
    laws::put_le::<4>(out, 0, value.to_bits());
}

// A bit string, and the bits of an f32.
pub fn gg_read_u32(octets: &[u8]) -> u32 {
    laws::le::<4>(octets, 0)
}

pub fn gg_write_u32(value: u32, out: &mut [u8]) {
    laws::put_le::<4>(out, 0, value);
}
