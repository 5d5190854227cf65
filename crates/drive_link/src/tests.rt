use super::*;
use elements::refusals::Refusal;
use link::answers::Done;
use std::cell::Cell;
use std::fmt::Display;
use std::io;
use std::process::Abort;

const SETTINGS: &str = "12 8 16 15000 10000 20000 1000";

const PAPER_SIZE: usize = 128;

// What was printed last, as far as it fits, and how long it was.
#[derive(Drop)]
struct Paper {
    bytes: Cell<[u8; PAPER_SIZE]>,
    len: Cell<usize>,
}

impl Paper {
    fn new() -> Paper {
        Paper {
            bytes: Cell::new([0; PAPER_SIZE]),
            len: Cell::new(0),
        }
    }

    fn says(&self, text: &str) -> bool {
        self.bytes.get().get(..self.len.get()) == Some(text.as_bytes())
    }
}

impl Print for Paper {
    fn print<D: Display + Drop>(&self, _value: D) -> io::Result<()> {
        Err(io::Error::from(io::ErrorKind::Unsupported))
    }

    fn println<D: Display + Drop>(&self, _value: D) -> io::Result<()> {
        Err(io::Error::from(io::ErrorKind::Unsupported))
    }

    fn write_all(&self, text: &[u8]) -> io::Result<()> {
        let mut bytes = [0; PAPER_SIZE];
        for (place, byte) in bytes.iter_mut().zip(text) {
            *place = *byte;
        }
        self.bytes.set(bytes);
        self.len.set(text.len());
        Ok(())
    }
}

fn opened(rt: &impl Abort, reply: &mut Reply) -> Station {
    let mut station = Station::new();
    assert!(rt; station.link().is_none());
    assert!(rt; station.open(reply, SETTINGS).is_ok());
    assert!(rt; reply.send(&Paper::new()).is_ok());
    station
}

// A tick that is later than it is told.
fn tick_after(
    station: &mut Station,
    reply: &mut Reply,
    more: u64,
    given: &str,
) -> Result<(), Wrong> {
    let link = station.link().ok_or(Wrong::Bad)?;
    let [now] = numbers::take::<1>(given).ok_or(Wrong::Bad)?;
    let mut out = [0; MIN_OUTPUT];
    let called = link_time::tick(link, station.pool(), &mut out, now.saturating_add(more));
    station.tell_called(reply, called, &out)
}

#[test]
fn a_callers_own_event_is_told_as_any_other(rt: HostRuntime) {
    let text = "0 680443000000 full=0 came=0 held=0 waiting=0 closed=0 reason=0\n";
    let mut reply = Reply::new();
    let paper = Paper::new();
    let mut own = opened(&rt, &mut reply);
    assert!(rt; tick_after(&mut own, &mut reply, 20000, "1000").is_ok());
    assert!(rt; reply.send(&paper).is_ok());
    assert!(rt; paper.says(text));
    let mut other = opened(&rt, &mut reply);
    assert!(rt; other.at(&mut reply, Timed::Tick, "21000").is_ok());
    assert!(rt; reply.send(&paper).is_ok());
    assert!(rt; paper.says(text));
    assert!(rt; own.link().is_some());
    assert_eq!(rt; own.link(), other.link());
    assert_eq!(rt; own.pool(), other.pool());
}

fn says(rt: &impl Abort, station: &mut Station, answer: Result<Done, Refusal>, text: &str) {
    let Some(link) = station.link() else {
        return assert!(rt; false, "there is no link");
    };
    let mut out = [0; MIN_OUTPUT];
    out[..8].copy_from_slice(&[1, 2, 3, 4, 5, 6, 7, 8]);
    let mut reply = Reply::new();
    let paper = Paper::new();
    assert!(rt;
        station
            .tell_called(&mut reply, Called { link, answer }, &out)
            .is_ok()
    );
    assert!(rt; reply.send(&paper).is_ok());
    assert!(rt; paper.says(text), "{text}");
}

#[test]
fn all_of_an_answer_is_told(rt: HostRuntime) {
    let mut station = opened(&rt, &mut Reply::new());
    let done = Done {
        written: 9,
        full: true,
        came: true,
    };
    says(
        &rt,
        &mut station,
        Ok(done),
        "0 010203040506070800 full=1 came=1 held=0 waiting=0 closed=0 reason=0\n",
    );
    says(
        &rt,
        &mut station,
        Err(Refusal::WrongKind),
        "16 - full=0 came=0 held=0 waiting=0 closed=0 reason=0\n",
    );
}

// What waits after a Send with a full window is in the pool that the next event is called with.
#[test]
fn what_waits_is_in_the_pool(rt: HostRuntime) {
    let mut reply = Reply::new();
    let mut station = Station::new();
    assert!(rt;
        station
            .open(&mut reply, "1 1 16 15000 10000 20000 1000")
            .is_ok()
    );
    assert!(rt;
        station
            .send(&mut reply, "01010300010001000001 1000")
            .is_ok()
    );
    assert_eq!(rt; station.pool().first_chunk::<2>(), Some(&[0, 0]));
    assert!(rt;
        station
            .send(&mut reply, "01010300010001000001 1000")
            .is_ok()
    );
    assert_eq!(rt; station.pool().first_chunk::<4>(), Some(&[1, 1, 3, 0]));
}
