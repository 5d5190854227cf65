// What every crate needs of octets: numbers of a few octets, the lowest octet first, and octets copied to a place.
// All are total: an octet past the end reads as 0, and one written past the end changes nothing.
#![tactic(auto)]

ghost use Rattle.std.specs.Prelude.{◌≡◌, ◌-◌, ◌%◌, ◌^◌, ◌<◌, ◌≤◌, min, drop, get_or, set};
ghost use Rattle.std.proofs.lemmas.List.Edits.{sets};
ghost use Rattle.laws.specs.Bits.{num};
ghost use Rattle.laws.specs.Numbers.{le_of, le_octets};

pub fn wide(x: u8) -> u32
    ensures value { result ≡ x }
    ensures upper_bound { result < 256 }
{
    x as u32
}

pub fn low(n: u32) -> u8
    ensures { result ≡ n % 256 }
{
    (n % 256) as u8
}

pub fn bit(b: bool) -> u8
    ensures value { result ≡ num b }
    ensures upper_bound { result ≤ 1 }
{
    b as u8
}

// How many octets there are from place `at` of `size` on, and at most `most`.
pub fn up_to(size: usize, at: usize, most: usize) -> usize
    ensures { result ≡ min (size - at) most }
{
    size.saturating_sub(at).min(most)
}

pub fn octet_at(s: &[u8], at: usize) -> u8
    ensures { result ≡ get_or s.now at 0 }
{
    s.get(at).copied().unwrap_or(0)
}

// The part from a place on, empty past the end.
pub fn part_from(s: &[u8], at: usize) -> &[u8]
    ensures { result.now ≡ drop at s.now }
{
    &s[at.min(s.len())..]
}

// The number in N octets, the lowest octet first; of more than four, in the first four.
#[tactic(auto, unfolding(crate::specs::Numbers::le_of))]
pub fn le<const N: usize>(s: &[u8], at: usize) -> u32
    ensures value { result ≡ le_of (min N 4) (drop at s.now) }
    ensures upper_bound { result < 256 ^ min N 4 }
{
    let part = part_from(s, at);
    let mut n: u32 = 0;
    for i in (0..N.min(4)).rev() {
        n = n * 256 + wide(octet_at(part, i));
    }
    n
}

// Kept: an output and a place, here and in what puts more, since the contracts speak of `sets out at ..`.
pub fn put_octet(out: &mut [u8], at: usize, v: u8)
    ensures { out.new ≡ set out.old at v }
{
    if at < out.len() {
        out[at] = v;
    }
}

// The N lowest octets of a number, the lowest first.
#[tactic(auto, using(crate::proofs::Lists::sets_past, crate::proofs::Lists::rest_sets), unfolding(crate::specs::Numbers::le_octets))]
pub fn put_le<const N: usize>(out: &mut [u8], at: usize, n: u32)
    ensures { out.new ≡ sets out.old at (le_octets N n) }
{
    if at < out.len() {
        let part = &mut out[at..];
        let mut rest = n;
        for i in 0..N {
            put_octet(part, i, low(rest));
            rest /= 256;
        }
    }
}

// Octets in a row, as far as the output reaches. One by one: the library's copy would have an archive for C need `memmove`.
pub fn put_octets(out: &mut [u8], at: usize, octets: &[u8])
    ensures { out.new ≡ sets out.old at octets.now }
{
    for i in 0..up_to(out.len(), at, octets.len()) {
        out[at + i] = octets[i];
    }
}
