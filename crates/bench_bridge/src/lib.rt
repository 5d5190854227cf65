// The calls on frames that the host times (host/src/bench.rs), as C functions: for tests only. Each calls the library as
// a user would and lets the record go where it was made: the host gets a number that depends on it, and no copy.
#![tactic(auto)]

use apdu::frame::{Frame, ReceiveNumber, SendNumber};
use apdu::{reading, writing};
use asdu::Form;

// Above any number of refusal. Kept as numbers, which C sees, and apart from bridge_records: the timed library links nothing else.
const RESERVED: u32 = 100;

// The address of the object at `place`; beside a refusal that of a blank one, 0. Only the host knows the place, so the
// whole record has to be there.
#[unsafe(no_mangle)]
pub extern "C" fn gb_read(f: &[u8], place: usize) -> u32 {
    let Ok(Frame::I(_, _)) = reading::read_frame(f) else {
        return 0;
    };
    let asdu = asdu_read::read_record(reading::asdu_of(f));
    asdu.objects[place % 127].address
}

// The number of the refusal, 0 for none.
#[unsafe(no_mangle)]
pub extern "C" fn gb_check(f: &[u8]) -> u32 {
    match reading::read_frame(f) {
        Ok(_) => 0,
        Err(refusal) => refusal as u32,
    }
}

#[unsafe(no_mangle)]
pub extern "C" fn gb_plain(f: &[u8]) -> u32 {
    match reading::plain_frame(f) {
        Ok(Form::Plain) => 0,
        Ok(Form::Reserved) => RESERVED,
        Err(refusal) => refusal as u32,
    }
}

// Reads the frame once, and writes its record as an I frame so many times, each with another originator.
#[unsafe(no_mangle)]
pub extern "C" fn gb_write(f: &[u8], out: &mut [u8], times: u32) -> u32 {
    let mut asdu = asdu_read::read_record(reading::asdu_of(f));
    let mut length: usize = 0;
    for i in 0..times {
        asdu.originator = laws::low(i);
        let Ok(n) = writing::write_i(SendNumber(2), ReceiveNumber(3), &asdu, out) else {
            return 0;
        };
        length = n;
    }
    (length % 256) as u32
}
