// What host/ links of `bridge_link`: each of its functions as a C function of the same name, as `bridge_c` is for `bridge`.
#![tactic(auto)]

#[unsafe(no_mangle)]
pub extern "C" fn gg_link_open(list: &mut [u64], moment: u64) -> u32 {
    bridge_link::gg_link_open(list, moment)
}

#[unsafe(no_mangle)]
pub extern "C" fn gg_link_receive(
    list: &mut [u64],
    pool: &[u8],
    out: &mut [u8],
    f: &[u8],
    more: bool,
    moment: u64,
) -> u32 {
    bridge_link::gg_link_receive(list, pool, out, f, more, moment)
}

#[unsafe(no_mangle)]
pub extern "C" fn gg_link_send(
    list: &mut [u64],
    pool: &mut [u8],
    out: &mut [u8],
    asdu: &[u8],
    moment: u64,
) -> u32 {
    bridge_link::gg_link_send(list, pool, out, asdu, moment)
}

#[unsafe(no_mangle)]
pub extern "C" fn gg_link_stop(list: &mut [u64], pool: &[u8], out: &mut [u8], moment: u64) -> u32 {
    bridge_link::gg_link_stop(list, pool, out, moment)
}

#[unsafe(no_mangle)]
pub extern "C" fn gg_link_test(list: &mut [u64], pool: &[u8], out: &mut [u8], moment: u64) -> u32 {
    bridge_link::gg_link_test(list, pool, out, moment)
}

#[unsafe(no_mangle)]
pub extern "C" fn gg_link_tick(list: &mut [u64], pool: &[u8], out: &mut [u8], moment: u64) -> u32 {
    bridge_link::gg_link_tick(list, pool, out, moment)
}
