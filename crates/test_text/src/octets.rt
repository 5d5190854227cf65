// Octets as pairs of hexadecimal digits. Digits of either case are read, small ones written.
ghost use Rattle.std.specs.Prelude.{◌≤◌, IfSome};

use std::fmt;

// Octets whose digits are written at once.
const AT_ONCE: usize = 64;

fn digit_of(value: u8) -> u8 {
    let digit = value % 16;
    if digit < 10 {
        b'0' + digit
    } else {
        b'a' + (digit - 10)
    }
}

fn pair_of(octet: u8) -> [u8; 2] {
    [digit_of(octet / 16), digit_of(octet)]
}

#[derive(Clone, Copy)]
pub struct Digits<'a>(pub &'a [u8]);

impl<'a> fmt::Display for Digits<'a> {
    fn fmt<W: fmt::Write>(&self, f: &mut fmt::Formatter<W>) -> fmt::Result {
        let mut text = [[0; 2]; AT_ONCE];
        for octets in self.0.chunks(AT_ONCE) {
            for (pair, octet) in text.iter_mut().zip(octets) {
                *pair = pair_of(*octet);
            }
            let digits = text[..octets.len().min(AT_ONCE)].as_flattened();
            f.write_str(str::from_utf8(digits).map_err(|_| fmt::Error)?)?;
        }
        Ok(())
    }
}

// With `-` for none.
#[derive(Clone, Copy)]
pub struct Hex<'a>(pub &'a [u8]);

impl<'a> fmt::Display for Hex<'a> {
    fn fmt<W: fmt::Write>(&self, f: &mut fmt::Formatter<W>) -> fmt::Result {
        if self.0.is_empty() {
            return f.write_str("-");
        }
        write!(f, "{}", Digits(self.0))
    }
}

fn value_of(digit: u8) -> Option<u8>
    ensures { IfSome result (λ value. value ≤ 15) }
{
    match digit {
        b'0'..=b'9' => Some(digit - b'0'),
        b'A'..=b'F' => Some(digit - b'A' + 10),
        b'a'..=b'f' => Some(digit - b'a' + 10),
        _ => None,
    }
}

fn octet_of(pair: [u8; 2]) -> Option<u8> {
    let [high, low] = pair;
    Some(value_of(high)? * 16 + value_of(low)?)
}

// The octets that digits say go to the start of `room`; there are none where they do not fit.
pub fn of_digits<'a>(digits: &[u8], room: &'a mut [u8]) -> Option<&'a [u8]> {
    let (pairs, rest) = digits.as_chunks::<2>();
    if !rest.is_empty() {
        return None;
    }
    let octets = room.get_mut(..pairs.len())?;
    for (octet, pair) in octets.iter_mut().zip(pairs) {
        *octet = octet_of(*pair)?;
    }
    Some(octets)
}

// The same of a text with `-` for none.
pub fn take<'a>(text: &str, room: &'a mut [u8]) -> Option<&'a [u8]> {
    match text {
        "" => None,
        "-" => Some(&[]),
        _ => of_digits(text.as_bytes(), room),
    }
}
