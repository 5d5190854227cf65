// The bench: commands from standard input, one a line, are run on the proved library and answered in a line each.
//
//     frame HEX         I NS NR ASDUHEX, S NR, U HH (the first control octet)
//     asdu HEX          TYPE SEQ TEST NEG CAUSE ORIG ADDR COUNT, and for each object ADDRESS:name=value,..
//     plain HEX         plain or reserved: whether writing the reading of the frame gives the same bytes
//     plainasdu HEX     the same of an ASDU
//     rewrite HEX       the bytes of writing the reading of the frame
//     rewriteasdu HEX   the same of an ASDU
//     topup HEX HEX     moved N: topping up a carry of 255 bytes that holds the first HEX, the second is the chunk
//     pick HEX HEX      carry N, chunk N or more: where the next frame is, and how long it is
//     open K W P T1 T2 T3 NOW   ok: a link of these settings is open from now on
//
// or `refused N`, by document 01's number. On the link that was opened last, if that was not refused:
//
//     recv HEX MORE NOW  a frame, and the mark "more to come"
//     send HEX NOW       an ASDU to send
//     stop NOW, test NOW, tick NOW
//
// are answered by REFUSAL HEX full=B came=B held=N waiting=N closed=B reason=N: the number of the refusal (0 for none), what
// was written, whether the window is full, whether an ASDU came, how many frames are outstanding and how many ASDUs wait,
// whether the link is closed and by which number. `-` stands for an empty HEX, a mark is 0 or 1, other numbers are decimal
// and have 64 bits. Any other line is `bad`.
#![tactic(auto)]

use drive_link::{Station, Timed};
use std::fmt::Write;
use std::io;
use std::io::Read;
use test_text::reply::Reply;
use test_text::wrong::Wrong;
use test_text::{LINE_SIZE, OCTETS_SIZE};

// The bytes of a line that have come. An array and a length: the program takes no memory but its own.
#[derive(Drop)]
struct Line {
    bytes: [u8; LINE_SIZE],
    len: usize,
}

impl Line {
    fn new() -> Line {
        Line {
            bytes: [0; LINE_SIZE],
            len: 0,
        }
    }

    // Bytes that there is no room for count.
    fn push(&mut self, more: &[u8]) {
        let room = self.bytes.get_mut(self.len..).unwrap_or(&mut []);
        let n = more.len().min(room.len());
        room[..n].copy_from_slice(&more[..n]);
        self.len = self.len.saturating_add(more.len());
    }

    // None where it is too long, or no text.
    fn text(&self) -> Option<&str> {
        str::from_utf8(self.bytes.get(..self.len)?).ok()
    }
}

#[derive(Drop)]
struct Bench {
    line: Line,
    station: Station,
    room: [u8; OCTETS_SIZE],
    reply: Reply,
}

impl Bench {
    // A command and what it is given, with one space between.
    fn run(&mut self) -> Result<(), Wrong> {
        let reply = &mut self.reply;
        let text = self.line.text().ok_or(Wrong::Bad)?;
        let (name, given) = text.split_once(' ').unwrap_or((text, ""));
        match name {
            "open" => self.station.open(reply, given),
            "recv" => self.station.receive(reply, given),
            "send" => self.station.send(reply, given),
            "stop" => self.station.at(reply, Timed::Stop, given),
            "test" => self.station.at(reply, Timed::Test, given),
            "tick" => self.station.at(reply, Timed::Tick, given),
            "topup" => drive_streams::top_up(reply, given),
            "pick" => drive_streams::pick(reply, given),
            _ => drive_frames::answer(reply, &mut self.room, name, given),
        }
    }

    fn answer(&mut self, rt: &impl Print) -> io::Result<()> {
        let ended = self.run();
        self.line.len = 0;
        match ended {
            Ok(()) => {}
            Err(Wrong::Bad) => self.reply.write_str("bad")?,
            Err(Wrong::Refused(refusal)) => write!(self.reply, "{refusal}")?,
            Err(Wrong::Output(error)) => return Err(error),
        }
        self.reply.send(rt)
    }

    // A line's end has it answered; any other byte is held.
    fn take(&mut self, rt: &impl Print, bytes: &[u8]) -> io::Result<()> {
        for part in bytes.split_inclusive(|byte| *byte == b'\n') {
            match part.strip_suffix(b"\n") {
                Some(rest) => {
                    self.line.push(rest);
                    self.answer(rt)?;
                }
                None => self.line.push(part),
            }
        }
        Ok(())
    }
}

fn main(rt: HostRuntime) -> io::Result<()> {
    let mut bench = Bench {
        line: Line::new(),
        station: Station::new(),
        room: [0; OCTETS_SIZE],
        reply: Reply::new(),
    };
    let mut commands = rt.stdin();
    let mut bytes = [0; 4096];
    // A line is answered before the next one is there. A proved loop ends: no input uses up this one's turns.
    for _ in 0..u64::MAX {
        let n = commands.read(&mut bytes)?;
        if n == 0 {
            break;
        }
        bench.take(&rt, &bytes[..n])?;
    }
    if bench.line.len > 0 {
        bench.answer(&rt)?;
    }
    Ok(())
}
