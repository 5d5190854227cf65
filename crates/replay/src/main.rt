// Replays answers of the Rust crate iec104 0.6.0, so that `rt ci` holds the library to them with no Rust at hand.
// Standard input is the stored sample, made by `tools/differential sample` (host/src/sample.rs, seed 104). Each line
// that the library's answer does not agree with, or that is broken, is shown.
#![tactic(auto)]

mod asdus;
mod frames;
mod lines;
mod octets;
mod streams;

ghost use Rattle.std.specs.Prelude.{◌≤◌, length, IfOk};

use lines::MAX_LINE;
use std::io;
use std::io::Read;

const HEAD: usize = 12;

// Reads until the buffer is full or the input ends, and tells how many bytes it holds then, as `read_exact` would not. Kept a
// `while`: it counts no index.
fn read_full(input: &mut impl Read, buffer: &mut [u8]) -> io::Result<usize>
    ensures { IfOk result (λ n. n ≤ length buffer.new) }
{
    let mut done = 0;
    while done < buffer.len() {
        match input.read(&mut buffer[done..])? {
            0 => break,
            n => done += n,
        }
    }
    Ok(done)
}

// Its first bytes tell how long a line is.
fn read_line<'a>(input: &mut impl Read, line: &'a mut [u8; MAX_LINE]) -> io::Result<&'a [u8]> {
    let head = read_full(input, &mut line[..HEAD])?;
    if head < HEAD {
        return Ok(&line[..head]);
    }
    let end = lines::length(line).clamp(HEAD, MAX_LINE);
    let rest = read_full(input, &mut line[HEAD..end])?;
    Ok(&line[..HEAD + rest])
}

fn main(rt: HostRuntime) -> io::Result<()> {
    let mut input = rt.stdin();
    let mut room = [0; MAX_LINE];
    let mut cases: u64 = 0;
    let mut differing: u64 = 0;
    // A proved loop ends: this one by a count that no sample uses up.
    for _ in 0..1_000_000 {
        let line = read_line(&mut input, &mut room)?;
        if line.is_empty() {
            break;
        }
        cases = cases.saturating_add(1);
        if !lines::agrees(line) {
            rt.write_all(line)?;
            differing = differing.saturating_add(1);
        }
    }
    println!(rt; "{cases} cases, {differing} differ")
}
