// A program's answer to a line of its input: what is written to it is kept, and goes out whole.
use std::fmt::Write;
use std::{fmt, io};

// The longest answer, of a link that hands out 16 full frames, has under 8,300 bytes.
const SIZE: usize = 8320;

// An array and a length: the programs take no memory but their own.
#[derive(Drop)]
pub struct Reply {
    bytes: [u8; SIZE],
    len: usize,
}

impl Reply {
    pub fn new() -> Reply {
        Reply {
            bytes: [0; SIZE],
            len: 0,
        }
    }

    // A line of it, by one write; the next answer begins anew.
    pub fn send(&mut self, rt: &impl Print) -> io::Result<()> {
        self.write_str("\n")?;
        let line = self.bytes.get(..self.len).unwrap_or(&[]);
        self.len = 0;
        rt.write_all(line)
    }
}

impl fmt::Write for Reply {
    fn write_str(&mut self, text: &str) -> fmt::Result {
        let room = self.bytes.get_mut(self.len..).ok_or(fmt::Error)?;
        let place = room.get_mut(..text.len()).ok_or(fmt::Error)?;
        place.copy_from_slice(text.as_bytes());
        self.len = self.len.saturating_add(text.len());
        Ok(())
    }
}
