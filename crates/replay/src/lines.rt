// Lines of the sample: a letter for the kind, octets given, octets told. Of an element or a number there are eight of
// each. Of an ASDU (`a`, `A`), a frame (`f`, `F`) or a stream (`t`) the line says how many after its letter, in four digits
// each.
ghost use Rattle.std.specs.Prelude.{◌≤◌};

use crate::{asdus, frames, octets, streams};
use std::fmt;
use std::fmt::Write;
use test_text::octets::Digits;

const MAX_GIVEN: u16 = 256;

const MAX_TOLD: u16 = 2048;

pub const MAX_LINE: usize = 4622;

// A byte that is no digit has a value too: the line is then not written as it was read.
fn digit_value(glyph: u8) -> u8 {
    match glyph {
        b'0'..=b'9' => glyph - b'0',
        b'a'..=u8::MAX => (glyph - b'a' + 10) % 16,
        _ => 0,
    }
}

// The number of the four digits at a place.
fn number_at(line: &[u8], at: usize) -> u16 {
    let digits = line.iter().skip(at).take(4);
    digits.fold(
        0,
        |n: u16, glyph| n
            .wrapping_mul(16)
            .wrapping_add(u16::from(digit_value(*glyph))),
    )
}

// How many octets a line gives and tells, and whether it says so.
#[derive(Clone, Copy)]
struct Shape {
    numbered: bool,
    given: u16,
    told: u16,
}

impl Shape {
    const OF_OCTETS: Shape = Shape {
        numbered: false,
        given: 8,
        told: 8,
    };

    // A line that says too much has the shape of the others, and so is not written as it was read.
    fn of(line: &[u8]) -> Shape
        ensures { (result.given ≤ 256) × (result.told ≤ 2048) }
    {
        let Some(b'a' | b'A' | b'f' | b'F' | b't') = line.first() else {
            return Shape::OF_OCTETS;
        };
        let given = number_at(line, 2);
        let told = number_at(line, 7);
        if given > MAX_GIVEN || told > MAX_TOLD {
            return Shape::OF_OCTETS;
        }
        Shape {
            numbered: true,
            given,
            told,
        }
    }

    // Where the octets given begin.
    fn start(self) -> u8
        ensures { result ≤ 12 }
    {
        if self.numbered { 12 } else { 2 }
    }
}

// The length of a line, by its first 12 bytes.
pub fn length(line: &[u8]) -> usize
    ensures { result ≤ 4622 }
{
    let shape = Shape::of(line);
    let octets = (shape.given + shape.told) as usize;
    shape.start() as usize + octets * 2 + 2
}

// What is left of a line behind the text that was held to it. Other text is not taken.
#[derive(Clone, Copy)]
struct Left<'a>(&'a [u8]);

impl<'a> fmt::Write for Left<'a> {
    fn write_str(&mut self, text: &str) -> fmt::Result {
        self.0 = self.0.strip_prefix(text.as_bytes()).ok_or(fmt::Error)?;
        Ok(())
    }
}

// What a line says.
#[derive(Clone, Copy)]
struct Case<'a> {
    kind: u8,
    numbered: bool,
    given: &'a [u8],
    told: &'a [u8],
}

impl<'a> fmt::Display for Case<'a> {
    fn fmt<W: fmt::Write>(&self, f: &mut fmt::Formatter<W>) -> fmt::Result {
        write!(f, "{} ", char::from(self.kind))?;
        if self.numbered {
            write!(f, "{:04x} {:04x} ", self.given.len(), self.told.len())?;
        }
        writeln!(f, "{} {}", Digits(self.given), Digits(self.told))
    }
}

impl<'a> Case<'a> {
    fn read(line: &[u8], given: &'a mut [u8], told: &'a mut [u8]) -> Option<Case<'a>> {
        let shape = Shape::of(line);
        let (_, rest) = line.split_at_checked(usize::from(shape.start()))?;
        let (given_digits, rest) = rest.split_at_checked(usize::from(shape.given) * 2)?;
        let (_, rest) = rest.split_at_checked(1)?;
        let (told_digits, _) = rest.split_at_checked(usize::from(shape.told) * 2)?;
        Some(Case {
            kind: *line.first()?,
            numbered: shape.numbered,
            given: test_text::octets::of_digits(given_digits, given)?,
            told: test_text::octets::of_digits(told_digits, told)?,
        })
    }

    // A line that is broken is not what its octets are written as.
    fn is_written_as(self, line: &[u8]) -> bool {
        let mut left = Left(line);
        write!(left, "{self}").is_ok() && left.0.is_empty()
    }

    fn is_answered(self) -> bool {
        match self.kind {
            b'a' => asdus::reads(self.given, self.told),
            b'A' => asdus::writes(self.given, self.told),
            b'f' => frames::reads(self.given, self.told),
            b'F' => frames::writes(self.given, self.told),
            b't' => streams::steps(self.given, self.told),
            _ => octets::agrees(self.kind, self.given, self.told),
        }
    }
}

// Whether the library answers what is told.
pub fn agrees(line: &[u8]) -> bool {
    let mut given = [0; MAX_GIVEN as usize];
    let mut told = [0; MAX_TOLD as usize];
    Case::read(line, &mut given, &mut told).is_some_and(|case| case.is_written_as(line)
        && case.is_answered())
}
