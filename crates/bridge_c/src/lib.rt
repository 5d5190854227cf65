// What host/ links of `bridge`: each of its functions as a C function of the same name. A slice goes over as its address and
// its length. Neither side promises anything in a clause. Kept one for each type: C calls them by name.
#![tactic(auto)]

use bridge::{asdus, walks};

#[unsafe(no_mangle)]
pub extern "C" fn gg_read_qds(octet: u8, out: &mut [u8]) {
    bridge::gg_read_qds(octet, out);
}

#[unsafe(no_mangle)]
pub extern "C" fn gg_write_qds(s: &[u8]) -> u8 {
    bridge::gg_write_qds(s)
}

#[unsafe(no_mangle)]
pub extern "C" fn gg_read_siq(octet: u8, out: &mut [u8]) {
    bridge::gg_read_siq(octet, out);
}

#[unsafe(no_mangle)]
pub extern "C" fn gg_write_siq(s: &[u8]) -> u8 {
    bridge::gg_write_siq(s)
}

#[unsafe(no_mangle)]
pub extern "C" fn gg_read_diq(octet: u8, out: &mut [u8]) {
    bridge::gg_read_diq(octet, out);
}

#[unsafe(no_mangle)]
pub extern "C" fn gg_write_diq(s: &[u8]) -> u8 {
    bridge::gg_write_diq(s)
}

#[unsafe(no_mangle)]
pub extern "C" fn gg_read_seq_qd(octet: u8, out: &mut [u8]) {
    bridge::gg_read_seq_qd(octet, out);
}

#[unsafe(no_mangle)]
pub extern "C" fn gg_write_seq_qd(s: &[u8], out: &mut [u8]) -> u8 {
    bridge::gg_write_seq_qd(s, out)
}

#[unsafe(no_mangle)]
pub extern "C" fn gg_read_coi(octet: u8, out: &mut [u8]) {
    bridge::gg_read_coi(octet, out);
}

#[unsafe(no_mangle)]
pub extern "C" fn gg_write_coi(s: &[u8], out: &mut [u8]) -> u8 {
    bridge::gg_write_coi(s, out)
}

#[unsafe(no_mangle)]
pub extern "C" fn gg_read_vti(octets: &[u8], out: &mut [u8]) -> i8 {
    bridge::gg_read_vti(octets, out)
}

#[unsafe(no_mangle)]
pub extern "C" fn gg_write_vti(value: i8, s: &[u8], out: &mut [u8]) -> u8 {
    bridge::gg_write_vti(value, s, out)
}

#[unsafe(no_mangle)]
pub extern "C" fn gg_read_i16(octets: &[u8]) -> i16 {
    bridge::gg_read_i16(octets)
}

#[unsafe(no_mangle)]
pub extern "C" fn gg_write_i16(value: i16, out: &mut [u8]) {
    bridge::gg_write_i16(value, out);
}

#[unsafe(no_mangle)]
pub extern "C" fn gg_read_i32(octets: &[u8]) -> i32 {
    bridge::gg_read_i32(octets)
}

#[unsafe(no_mangle)]
pub extern "C" fn gg_write_i32(value: i32, out: &mut [u8]) {
    bridge::gg_write_i32(value, out);
}

#[unsafe(no_mangle)]
pub extern "C" fn gg_read_u32(octets: &[u8]) -> u32 {
    bridge::gg_read_u32(octets)
}

#[unsafe(no_mangle)]
pub extern "C" fn gg_write_u32(value: u32, out: &mut [u8]) {
    bridge::gg_write_u32(value, out);
}

#[unsafe(no_mangle)]
pub extern "C" fn gg_asdu_read(s: &[u8], record: &mut [u8]) -> u32 {
    asdus::gg_asdu_read(s, record)
}

#[unsafe(no_mangle)]
pub extern "C" fn gg_asdu_check(s: &[u8]) -> u32 {
    asdus::gg_asdu_check(s)
}

#[unsafe(no_mangle)]
pub extern "C" fn gg_asdu_plain(s: &[u8]) -> u32 {
    asdus::gg_asdu_plain(s)
}

#[unsafe(no_mangle)]
pub extern "C" fn gg_asdu_write(record: &[u8], out: &mut [u8]) -> u32 {
    asdus::gg_asdu_write(record, out)
}

#[unsafe(no_mangle)]
pub extern "C" fn gg_asdu_rewrite(s: &[u8], out: &mut [u8]) -> u32 {
    asdus::gg_asdu_rewrite(s, out)
}

#[unsafe(no_mangle)]
pub extern "C" fn gg_asdu_walk(s: &[u8], record: &mut [u8]) -> u32 {
    walks::gg_asdu_walk(s, record)
}
