// What a call on a link told, behind the link's own numbers: how many octets it wrote, whether the window is full, and
// whether an ASDU came.
use crate::cells;
use crate::cells::InCells;
use link::answers::{Called, Done};
use link_state::Link;

// A call writes at most 16 I frames and two others.
const MOST_FRAMES: usize = 18;

pub fn put(list: &mut [u64], link: Link, done: Done) {
    let mut rest = list;
    link.put(&mut rest);
    done.written.put(&mut rest);
    [done.full, done.came].put(&mut rest);
}

// Is an S frame among these frames? Of all frames its first control octet alone is 1.
fn confirms(frames: &[u8]) -> bool {
    let mut rest = frames;
    for _ in 0..MOST_FRAMES {
        let Some([_, size, control]) = rest.first_chunk::<3>() else {
            return false;
        };
        if *control == 1 {
            return true;
        }
        rest = rest.get(2 + usize::from(*size)..).unwrap_or(&[]);
    }
    false
}

// With what the call wrote: an S frame says that it unset t2. Beside a refusal nothing was written and nothing came; the window
// is what it is.
pub fn put_called(list: &mut [u64], called: Called, out: &[u8]) -> u32 {
    let link = called.link;
    match called.answer {
        Ok(done) => {
            put(list, link, done);
            if out.get(..done.written).is_some_and(confirms) {
                cells::clear(list, cells::T2_AT);
            }
            0
        }
        Err(refusal) => {
            let nothing = Done {
                written: 0,
                full: link.state.settings.k <= link.state.window.held,
                came: false,
            };
            put(list, link, nothing);
            refusal as u32
        }
    }
}
