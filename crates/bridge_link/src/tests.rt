// What no clause says: which cell holds what, and what a call leaves in each. The expected numbers are from document 01's
// rules, and the same as a bridge gave whose record had a time beside each mark.
use super::*;
use link_state::limits::{MIN_OUTPUT, MIN_POOL};
use std::process::Abort;

// One single point.
const ASDU: [u8; 10] = [0x01, 0x01, 0x03, 0x00, 0x01, 0x00, 0x0A, 0x00, 0x00, 0x01];

// Cells with the numbers in them.
type Cells = &'static [(usize, u64)];

#[derive(Clone, Copy)]
enum Event {
    Receive(&'static [u8]),
    Send,
    Stop,
    Test,
    Tick,
}

#[derive(Drop)]
struct Bench {
    list: [u64; 74],
    pool: [u8; MIN_POOL],
    out: [u8; MIN_OUTPUT],
}

impl Bench {
    fn call(&mut self, event: Event, moment: u64) -> u32 {
        let list = &mut self.list;
        let out = &mut self.out;
        match event {
            Event::Receive(f) => gg_link_receive(list, &self.pool, out, f, false, moment),
            Event::Send => gg_link_send(list, &mut self.pool, out, &ASDU, moment),
            Event::Stop => gg_link_stop(list, &self.pool, out, moment),
            Event::Test => gg_link_test(list, &self.pool, out, moment),
            Event::Tick => gg_link_tick(list, &self.pool, out, moment),
        }
    }

    // A call on the list that the case before left, with the numbers of `given` put into it: what it answers, what it changes in
    // the list, and what it writes.
    fn case(
        &mut self,
        rt: &impl Abort,
        told: &str,
        given: &[(usize, u64)],
        event: Event,
        moment: u64,
        refusal: u32,
        changes: &[(usize, u64)],
        written: &[u8],
    ) {
        let before = changed(self.list, given);
        self.list = before;
        assert_eq!(rt; self.call(event, moment), refusal, "{told}");
        assert_eq!(rt; self.list, changed(before, changes), "{told}");
        let out = self.out.get(..written.len()).unwrap_or(&[]);
        assert_eq!(rt; out, written, "{told}");
    }
}

// A list of numbers that all differ: 100 and the cell's own.
fn all_different() -> [u64; 74] {
    std::array::from_fn(|place| 100_u64.saturating_add(place as u64))
}

fn changed(list: [u64; 74], cells: &[(usize, u64)]) -> [u64; 74] {
    let mut after = list;
    for (place, number) in cells {
        if let Some(cell) = after.get_mut(*place) {
            *cell = *number;
        }
    }
    after
}

// A closed link of settings that are too great is refused with nothing changed but what the call tells. Marks are 0 or 1.
#[test]
fn a_refused_list_comes_back(rt: HostRuntime) {
    let marks: Cells = &[(61, 1), (63, 0), (65, 1), (68, 1)];
    let told: Cells = &[(71, 0), (72, 1), (73, 0)];
    let mut bench = Bench {
        list: changed(all_different(), marks),
        pool: [0; MIN_POOL],
        out: [0; MIN_OUTPUT],
    };
    let before = bench.list;
    for event in [
        Event::Receive(&[]),
        Event::Send,
        Event::Stop,
        Event::Test,
        Event::Tick,
    ] {
        assert_eq!(rt; bench.call(event, 1000), 19);
        assert_eq!(rt; bench.list, changed(before, told));
    }
}

// A number that is too great for its field is taken as the field's greatest, and a mark that is not 1 as 0.
#[test]
fn a_field_has_a_greatest(rt: HostRuntime) {
    let mut bench = Bench {
        list: [70000; 74],
        pool: [0; MIN_POOL],
        out: [0; MIN_OUTPUT],
    };
    assert_eq!(rt; bench.call(Event::Tick, 1000), 19);
    let greatest: Cells = &[
        (51, 65535),
        (58, 65535),
        (59, 65535),
        (60, 65535),
        (67, 255),
        (69, 255),
    ];
    let marks: Cells = &[(61, 0), (63, 0), (65, 0), (68, 0)];
    let told: Cells = &[(71, 0), (72, 1), (73, 0)];
    let fields = changed([70000; 74], greatest);
    assert_eq!(rt; bench.list, changed(changed(fields, marks), told));
}

// What a list has no room for is not put.
#[test]
fn a_list_may_be_short(rt: HostRuntime) {
    let mut list = [7; 64];
    let mut out = [0; MIN_OUTPUT];
    assert_eq!(rt; gg_link_tick(&mut list, &[0; MIN_POOL], &mut out, 1000), 19);
    let mut want = [7; 64];
    want[61] = 0;
    want[63] = 0;
    assert_eq!(rt; list, want);
    let mut fresh = [0; 64];
    for place in 50..56 {
        fresh[place] = 7;
    }
    assert_eq!(rt; gg_link_open(&mut list, 1000), 0);
    assert_eq!(rt; list, fresh);
    assert_eq!(rt; gg_link_open(&mut [], 1000), 19);
}

#[test]
fn opens(rt: HostRuntime) {
    let settings: Cells = &[
        (50, 12),
        (51, 8),
        (52, 16),
        (53, 15000),
        (54, 10000),
        (55, 20000),
    ];
    let started: Cells = &[(65, 1), (66, 21000), (70, 1000)];
    let mut list = changed(all_different(), settings);
    assert_eq!(rt; gg_link_open(&mut list, 1000), 0);
    assert_eq!(rt; list, changed(changed([0; 74], settings), started));
    let mut refused = all_different();
    assert_eq!(rt; gg_link_open(&mut refused, 1000), 19);
    assert_eq!(rt; refused, [0; 74]);
}

// The events of a link of k 1, w 1, p 2 and the times 15,000, 10,000 and 20,000, opened at 1000. A number beside a deadline that
// is not set (62, 64 or 66, where 61, 63 or 65 is not 1) stays until the call sets or unsets the deadline.
#[test]
fn a_call_changes_its_cells(rt: HostRuntime) {
    let settings: Cells = &[
        (50, 1),
        (51, 1),
        (52, 2),
        (53, 15000),
        (54, 10000),
        (55, 20000),
    ];
    let mut bench = Bench {
        list: changed([0; 74], settings),
        pool: [0; MIN_POOL],
        out: [0; MIN_OUTPUT],
    };
    assert_eq!(rt; gg_link_open(&mut bench.list, 1000), 0);
    bench.case(
        &rt,
        "sent at once",
        &[(62, 7), (64, 8)],
        Event::Send,
        1100,
        0,
        &[(0, 1100), (57, 1), (58, 1), (70, 1100), (71, 16), (72, 1)],
        &[
            0x68, 0x0E, 0x00, 0x00, 0x00, 0x00, 0x01, 0x01, 0x03, 0x00, 0x01, 0x00, 0x0A, 0x00,
            0x00, 0x01,
        ],
    );
    bench.case(
        &rt,
        "waits, with more than w to confirm",
        &[(60, 2)],
        Event::Send,
        1200,
        0,
        &[(32, 10), (49, 1), (60, 0), (64, 0), (70, 1200), (71, 6)],
        &[0x68, 0x04, 0x01, 0x00, 0x00, 0x00],
    );
    bench.case(
        &rt,
        "what waits goes out, t2 is set",
        &[(64, 8)],
        Event::Receive(&[
            0x68, 0x0E, 0x00, 0x00, 0x02, 0x00, 0x01, 0x01, 0x03, 0x00, 0x01, 0x00, 0x0A, 0x00,
            0x00, 0x01,
        ]),
        1300,
        0,
        &[
            (1, 1300),
            (48, 1),
            (49, 0),
            (56, 1),
            (58, 2),
            (59, 1),
            (63, 1),
            (64, 11300),
            (66, 21300),
            (70, 1300),
            (71, 16),
            (73, 1),
        ],
        &[
            0x68, 0x0E, 0x02, 0x00, 0x02, 0x00, 0x01, 0x01, 0x03, 0x00, 0x01, 0x00, 0x0A, 0x00,
            0x00, 0x01,
        ],
    );
    bench.case(
        &rt,
        "more than w come, t2 is set and unset",
        &[(60, 1), (63, 0), (64, 8)],
        Event::Receive(&[
            0x68, 0x0E, 0x02, 0x00, 0x04, 0x00, 0x01, 0x01, 0x03, 0x00, 0x01, 0x00, 0x0A, 0x00,
            0x00, 0x01,
        ]),
        1400,
        0,
        &[
            (56, 2),
            (57, 0),
            (59, 2),
            (60, 0),
            (64, 0),
            (66, 21400),
            (70, 1400),
            (71, 6),
            (72, 0),
        ],
        &[0x68, 0x04, 0x01, 0x00, 0x04, 0x00],
    );
    bench.case(
        &rt,
        "S frame",
        &[(64, 8)],
        Event::Receive(&[0x68, 0x04, 0x01, 0x00, 0x04, 0x00]),
        1500,
        0,
        &[(66, 21500), (70, 1500), (71, 0), (73, 0)],
        &[],
    );
    bench.case(
        &rt,
        "the clock went back",
        &[],
        Event::Tick,
        1400,
        21,
        &[],
        &[],
    );
    bench.case(
        &rt,
        "test, t1 of U frames is set",
        &[],
        Event::Test,
        1600,
        0,
        &[
            (61, 1),
            (62, 16600),
            (66, 21600),
            (67, 1),
            (70, 1600),
            (71, 6),
        ],
        &[0x68, 0x04, 0x43, 0x00, 0x00, 0x00],
    );
    bench.case(
        &rt,
        "test con, it is unset",
        &[],
        Event::Receive(&[0x68, 0x04, 0x83, 0x00, 0x00, 0x00]),
        1700,
        0,
        &[(61, 0), (62, 0), (66, 21700), (67, 0), (70, 1700), (71, 0)],
        &[],
    );
    bench.case(
        &rt,
        "test con, where it was not set",
        &[(62, 7)],
        Event::Receive(&[0x68, 0x04, 0x83, 0x00, 0x00, 0x00]),
        1800,
        0,
        &[(62, 0), (66, 21800), (70, 1800)],
        &[],
    );
    bench.case(
        &rt,
        "test act",
        &[(62, 7)],
        Event::Receive(&[0x68, 0x04, 0x43, 0x00, 0x00, 0x00]),
        1900,
        0,
        &[(66, 21900), (70, 1900), (71, 6)],
        &[0x68, 0x04, 0x83, 0x00, 0x00, 0x00],
    );
    bench.case(
        &rt,
        "nothing is due",
        &[(65, 0), (66, 9)],
        Event::Tick,
        29000,
        0,
        &[(70, 29000), (71, 0)],
        &[],
    );
    bench.case(
        &rt,
        "test, with more than w to confirm",
        &[(60, 2)],
        Event::Test,
        30000,
        0,
        &[
            (60, 0),
            (61, 1),
            (62, 45000),
            (64, 0),
            (65, 1),
            (66, 50000),
            (67, 1),
            (70, 30000),
            (71, 12),
        ],
        &[
            0x68, 0x04, 0x43, 0x00, 0x00, 0x00, 0x68, 0x04, 0x01, 0x00, 0x04, 0x00,
        ],
    );
    bench.case(
        &rt,
        "t2 and t3 are due",
        &[(61, 0), (62, 7), (63, 1), (64, 31000), (66, 31000)],
        Event::Tick,
        31000,
        0,
        &[
            (61, 1),
            (62, 46000),
            (63, 0),
            (64, 0),
            (66, 51000),
            (67, 2),
            (70, 31000),
        ],
        &[
            0x68, 0x04, 0x01, 0x00, 0x04, 0x00, 0x68, 0x04, 0x43, 0x00, 0x00, 0x00,
        ],
    );
    bench.case(
        &rt,
        "stop",
        &[(64, 8)],
        Event::Stop,
        32000,
        0,
        &[(62, 47000), (64, 0), (70, 32000)],
        &[
            0x68, 0x04, 0x13, 0x00, 0x00, 0x00, 0x68, 0x04, 0x01, 0x00, 0x04, 0x00,
        ],
    );
    bench.case(
        &rt,
        "a number that was never sent",
        &[(61, 2), (62, 7), (64, 8), (65, 0), (66, 9)],
        Event::Receive(&[0x68, 0x04, 0x01, 0x00, 0x12, 0x00]),
        33000,
        27,
        &[(61, 0), (68, 1), (69, 27), (71, 0)],
        &[],
    );
    bench.case(
        &rt,
        "the link is closed",
        &[],
        Event::Stop,
        33000,
        20,
        &[],
        &[],
    );
    bench.case(
        &rt,
        "stop con",
        &[(68, 0)],
        Event::Receive(&[0x68, 0x04, 0x23, 0x00, 0x00, 0x00]),
        34000,
        0,
        &[(65, 1), (66, 54000), (68, 1), (69, 0), (70, 34000)],
        &[],
    );
}
