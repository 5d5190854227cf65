// A link as a list of numbers: the ring of send times, the lengths of what waits, and then a number for each field, in the
// order of the records of `link_state`. What a list has no room for is not put, and a number past its end is taken as 0.
ghost use Rattle.std.specs.Prelude.{◌≡◌, set};

use apdu::frame::{ReceiveNumber, SendNumber};
use link_state::{Link, Queue, Receive, Settings, State, Status, Timers, Window};

// The cells of the settings begin here.
const SETTINGS_AT: usize = 50;

// The cells of the times at which t1 of U frames, t2 and t3 are due.
pub const T1U_AT: usize = 62;

pub const T2_AT: usize = 64;

pub const T3_AT: usize = 66;

// A value whose numbers are put at the start of a list and taken from its start; the list goes on behind them. Kept apart
// from `Listed` of bridge_records, whose list is octets: a number of a link is one of the list, whatever its type.
pub trait InCells: Copy {
    fn put(self, cells: &mut &mut [u64]);

    fn take(cells: &mut &[u64]) -> Self;
}

impl InCells for u64 {
    fn put(self, cells: &mut &mut [u64]) {
        if let Some(cell) = cells.split_off_first_mut() {
            *cell = self;
        }
    }

    fn take(cells: &mut &[u64]) -> u64 {
        cells.split_off_first().copied().unwrap_or(0)
    }
}

impl InCells for bool {
    fn put(self, cells: &mut &mut [u64]) {
        u64::from(self).put(cells);
    }

    fn take(cells: &mut &[u64]) -> bool {
        u64::take(cells) == 1
    }
}

impl InCells for usize {
    fn put(self, cells: &mut &mut [u64]) {
        (self as u64).put(cells);
    }

    fn take(cells: &mut &[u64]) -> usize {
        u64::take(cells) as usize
    }
}

// A number that is too great for its field is taken as the field's greatest.
impl InCells for u16 {
    fn put(self, cells: &mut &mut [u64]) {
        u64::from(self).put(cells);
    }

    fn take(cells: &mut &[u64]) -> u16 {
        u16::try_from(u64::take(cells)).unwrap_or(u16::MAX)
    }
}

impl InCells for u8 {
    fn put(self, cells: &mut &mut [u64]) {
        u64::from(self).put(cells);
    }

    fn take(cells: &mut &[u64]) -> u8 {
        u8::try_from(u64::take(cells)).unwrap_or(u8::MAX)
    }
}

impl<C: InCells, const N: usize> InCells for [C; N] {
    fn put(self, cells: &mut &mut [u64]) {
        for value in self {
            value.put(cells);
        }
    }

    fn take(cells: &mut &[u64]) -> [C; N] {
        std::array::from_fn(|_| C::take(cells))
    }
}

// A deadline takes two: whether it is set, and when it is due. Beside one that is not set the list keeps the number that it
// has, which the record has no place for: who puts one that a call has unset clears it (`clear`).
impl InCells for Option<u64> {
    fn put(self, cells: &mut &mut [u64]) {
        self.is_some().put(cells);
        if let (Some(cell), Some(at)) = (cells.split_off_first_mut(), self) {
            *cell = at;
        }
    }

    fn take(cells: &mut &[u64]) -> Option<u64> {
        let set = bool::take(cells);
        let at = u64::take(cells);
        set.then_some(at)
    }
}

impl InCells for Queue {
    fn put(self, cells: &mut &mut [u64]) {
        self.lengths.put(cells);
        self.place.put(cells);
        self.count.put(cells);
    }

    fn take(cells: &mut &[u64]) -> Queue {
        Queue {
            lengths: InCells::take(cells),
            place: InCells::take(cells),
            count: InCells::take(cells),
        }
    }
}

impl InCells for Settings {
    fn put(self, cells: &mut &mut [u64]) {
        self.k.put(cells);
        self.w.put(cells);
        self.p.put(cells);
        self.t1.put(cells);
        self.t2.put(cells);
        self.t3.put(cells);
    }

    fn take(cells: &mut &[u64]) -> Settings {
        Settings {
            k: InCells::take(cells),
            w: InCells::take(cells),
            p: InCells::take(cells),
            t1: InCells::take(cells),
            t2: InCells::take(cells),
            t3: InCells::take(cells),
        }
    }
}

impl InCells for Window {
    fn put(self, cells: &mut &mut [u64]) {
        self.first.put(cells);
        self.held.put(cells);
        self.next.0.put(cells);
    }

    fn take(cells: &mut &[u64]) -> Window {
        Window {
            first: InCells::take(cells),
            held: InCells::take(cells),
            next: SendNumber(InCells::take(cells)),
        }
    }
}

impl InCells for Receive {
    fn put(self, cells: &mut &mut [u64]) {
        self.next.0.put(cells);
        self.unconfirmed.put(cells);
    }

    fn take(cells: &mut &[u64]) -> Receive {
        Receive {
            next: ReceiveNumber(InCells::take(cells)),
            unconfirmed: InCells::take(cells),
        }
    }
}

impl InCells for Timers {
    fn put(self, cells: &mut &mut [u64]) {
        self.t1u.put(cells);
        self.t2.put(cells);
        self.t3.put(cells);
        self.tests.put(cells);
    }

    fn take(cells: &mut &[u64]) -> Timers {
        Timers {
            t1u: InCells::take(cells),
            t2: InCells::take(cells),
            t3: InCells::take(cells),
            tests: InCells::take(cells),
        }
    }
}

impl InCells for Status {
    fn put(self, cells: &mut &mut [u64]) {
        self.closed.put(cells);
        self.reason.put(cells);
    }

    fn take(cells: &mut &[u64]) -> Status {
        Status {
            closed: InCells::take(cells),
            reason: InCells::take(cells),
        }
    }
}

impl InCells for State {
    fn put(self, cells: &mut &mut [u64]) {
        self.queue.put(cells);
        self.settings.put(cells);
        self.window.put(cells);
        self.receive.put(cells);
        self.timers.put(cells);
        self.status.put(cells);
        self.clock.put(cells);
    }

    fn take(cells: &mut &[u64]) -> State {
        State {
            queue: InCells::take(cells),
            settings: InCells::take(cells),
            window: InCells::take(cells),
            receive: InCells::take(cells),
            timers: InCells::take(cells),
            status: InCells::take(cells),
            clock: InCells::take(cells),
        }
    }
}

impl InCells for Link {
    fn put(self, cells: &mut &mut [u64]) {
        self.times.put(cells);
        self.state.put(cells);
    }

    fn take(cells: &mut &[u64]) -> Link {
        Link {
            times: InCells::take(cells),
            state: InCells::take(cells),
        }
    }
}

pub fn link_in(cells: &[u64]) -> Link {
    let mut rest = cells;
    Link::take(&mut rest)
}

// The settings alone: opening takes nothing else of a list.
pub fn settings_in(cells: &[u64]) -> Settings {
    let mut rest = cells.get(SETTINGS_AT..).unwrap_or(&[]);
    Settings::take(&mut rest)
}

pub fn clear(list: &mut [u64], place: usize)
    ensures { list.new ≡ set list.old place 0 }
{
    if place < list.len() {
        list[place] = 0;
    }
}
