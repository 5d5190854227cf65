// What host/ links of `bridge_frames`: each of its functions as a C function of the same name, as `bridge_c` is for `bridge`.
#![tactic(auto)]

#[unsafe(no_mangle)]
pub extern "C" fn gg_frame_read(f: &[u8], fields: &mut [u8]) -> u32 {
    bridge_frames::gg_frame_read(f, fields)
}

#[unsafe(no_mangle)]
pub extern "C" fn gg_frame_asdu(f: &[u8], out: &mut [u8]) -> u32 {
    bridge_frames::gg_frame_asdu(f, out)
}

#[unsafe(no_mangle)]
pub extern "C" fn gg_frame_plain(f: &[u8]) -> u32 {
    bridge_frames::gg_frame_plain(f)
}

#[unsafe(no_mangle)]
pub extern "C" fn gg_frame_write_s(receive: u16, out: &mut [u8]) -> u32 {
    bridge_frames::gg_frame_write_s(receive, out)
}

#[unsafe(no_mangle)]
pub extern "C" fn gg_frame_write_u(flags: &[u8], out: &mut [u8]) -> u32 {
    bridge_frames::gg_frame_write_u(flags, out)
}

#[unsafe(no_mangle)]
pub extern "C" fn gg_frame_write_i(send: u16, receive: u16, record: &[u8], out: &mut [u8]) -> u32 {
    bridge_frames::gg_frame_write_i(send, receive, record, out)
}

#[unsafe(no_mangle)]
pub extern "C" fn gg_frame_write_i_octets(
    send: u16,
    receive: u16,
    asdu: &[u8],
    out: &mut [u8],
) -> u32 {
    bridge_frames::gg_frame_write_i_octets(send, receive, asdu, out)
}

#[unsafe(no_mangle)]
pub extern "C" fn gg_frame_rewrite(f: &[u8], out: &mut [u8]) -> u32 {
    bridge_frames::gg_frame_rewrite(f, out)
}
