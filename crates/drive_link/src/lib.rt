// The commands of `drive` on a link: `open`, `recv`, `send`, `stop`, `test` and `tick`.
#![tactic(auto)]

ghost use Rattle.std.specs.Prelude.{◌≡◌, Some};
ghost use Rattle.drive_link.specs.Stations.{station_link, station_pool};

#[cfg(test)]
mod tests;
mod told;

use link::answers::Called;
use link_state::limits::{MIN_OUTPUT, MIN_POOL};
use link_state::{Link, Settings, opening};
use std::fmt::Write;
use test_text::reply::Reply;
use test_text::wrong::Wrong;
use test_text::{OCTETS_SIZE, numbers, octets};
use told::Told;

// An event that is told a moment alone. Kept as an enum: who calls a closure has a `requires`, and no test program has one.
#[derive(Clone, Copy)]
pub enum Timed {
    Stop,
    Test,
    Tick,
}

// The link that was opened or told last, if that was not refused, and what its ASDUs wait in. The rooms for octets that a call
// is given and writes stand here, as clearing them would take a good part of a call's time.
#[derive(Drop)]
pub struct Station {
    link: Option<Link>,
    pool: [u8; MIN_POOL],
    room: [u8; OCTETS_SIZE],
    out: [u8; MIN_OUTPUT],
}

// A number that is too great for its field reads as the field's greatest.
fn settings_of(k: u64, w: u64, p: u64, times: [u64; 3]) -> Settings {
    let [t1, t2, t3] = times;
    Settings {
        k: k as usize,
        w: u16::try_from(w).unwrap_or(u16::MAX),
        p: p as usize,
        t1,
        t2,
        t3,
    }
}

// Octets, and just so many numbers behind them.
fn take<'a, const N: usize>(given: &str, room: &'a mut [u8]) -> Option<(&'a [u8], [u64; N])> {
    let (digits, rest) = given.split_once(' ')?;
    Some((octets::take(digits, room)?, numbers::take(rest)?))
}

impl Station {
    pub fn new() -> Station {
        Station {
            link: None,
            pool: [0; MIN_POOL],
            room: [0; OCTETS_SIZE],
            out: [0; MIN_OUTPUT],
        }
    }

    pub fn open(&mut self, reply: &mut Reply, given: &str) -> Result<(), Wrong> {
        let [k, w, p, t1, t2, t3, now] = numbers::take::<7>(given).ok_or(Wrong::Bad)?;
        let opened = opening::open(settings_of(k, w, p, [t1, t2, t3]), now);
        self.link = None;
        opened.answer?;
        self.link = Some(opened.link);
        reply.write_str("ok")?;
        Ok(())
    }

    // Octets, the mark "more to come" and a moment.
    pub fn receive(&mut self, reply: &mut Reply, given: &str) -> Result<(), Wrong> {
        let link = self.link.ok_or(Wrong::Bad)?;
        let (frame, [more, now]) = take::<2>(given, &mut self.room).ok_or(Wrong::Bad)?;
        if more > 1 {
            return Err(Wrong::Bad);
        }
        let out = &mut self.out;
        let called = link_receive::receive(link, &self.pool, out, frame, more == 1, now);
        self.tell(reply, called)
    }

    // Octets and a moment.
    pub fn send(&mut self, reply: &mut Reply, given: &str) -> Result<(), Wrong> {
        let link = self.link.ok_or(Wrong::Bad)?;
        let (asdu, [now]) = take::<1>(given, &mut self.room).ok_or(Wrong::Bad)?;
        let called = link_send::send(link, &mut self.pool, &mut self.out, asdu, now);
        self.tell(reply, called)
    }

    pub fn at(&mut self, reply: &mut Reply, event: Timed, given: &str) -> Result<(), Wrong> {
        let link = self.link.ok_or(Wrong::Bad)?;
        let [now] = numbers::take::<1>(given).ok_or(Wrong::Bad)?;
        let out = &mut self.out;
        let called = match event {
            Timed::Stop => link_time::stop(link, &self.pool, out, now),
            Timed::Test => link_time::test(link, &self.pool, out, now),
            Timed::Tick => link_time::tick(link, &self.pool, out, now),
        };
        self.tell(reply, called)
    }

    fn tell(&mut self, reply: &mut Reply, called: Called) -> Result<(), Wrong>
        ensures { (station_link self.new ≡ Some called.link) × (station_pool self.new ≡ station_pool self.old) }
    {
        self.link = Some(called.link);
        let out = &self.out;
        write!(reply, "{}", Told { called, out })?;
        Ok(())
    }

    // An event that is none of `Timed` is called with the link, the pool and an output of zeros, and `tell_called` takes its
    // answer.
    pub fn link(&self) -> Option<Link>
        ensures { result ≡ station_link self.now }
    {
        let Station { link, .. } = self;
        *link
    }

    pub fn pool(&self) -> &[u8; MIN_POOL]
        ensures { result.now ≡ station_pool self.now }
    {
        let Station { pool, .. } = self;
        pool
    }

    // Keeps the link that the call gave, and tells what it wrote to `out`.
    pub fn tell_called(
        &mut self,
        reply: &mut Reply,
        called: Called,
        out: &[u8; MIN_OUTPUT],
    ) -> Result<(), Wrong>
        ensures { (station_link self.new ≡ Some called.link) × (station_pool self.new ≡ station_pool self.old) }
    {
        self.out = *out;
        self.tell(reply, called)
    }
}
