// A frame as the list of its fields: kind, send number (2), receive number (2), an octet for each flag of a U frame.
// What a kind does not have is 0.
use apdu::frame::{Frame, UFrame};
use bridge_records::fields;

// Kept as numbers: C sees them.
const I: u8 = 1;

const S: u8 = 2;

const U: u8 = 3;

fn put(list: &mut [u8], kind: u8, numbers: [u16; 2], flags: [bool; 6]) {
    fields::put(list, (kind, (numbers, flags)));
}

pub fn put_frame(list: &mut [u8], frame: Frame) {
    match frame {
        Frame::I(send, receive) => put(list, I, [send.0, receive.0], [false; 6]),
        Frame::S(receive) => put(list, S, [0, receive.0], [false; 6]),
        Frame::U(u) => put(list, U, [0, 0], flags_of(u)),
    }
}

fn flags_of(u: UFrame) -> [bool; 6] {
    [
        u.start_act,
        u.start_con,
        u.stop_act,
        u.stop_con,
        u.test_act,
        u.test_con,
    ]
}

// From the six flags alone.
pub fn u_in(flags: &[u8]) -> UFrame {
    let [start_act, start_con, stop_act, stop_con, test_act, test_con] = fields::take::<[bool; 6]>(
        flags,
    );
    UFrame {
        start_act,
        start_con,
        stop_act,
        stop_con,
        test_act,
        test_con,
    }
}
