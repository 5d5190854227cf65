// The commands `asdu` and `rewriteasdu`.
use asdu::{Asdu, header};
use drive_values::Shown;
use std::fmt;
use std::fmt::Write;
use test_text::octets::Hex;
use test_text::reply::Reply;
use test_text::wrong::Wrong;

// The header, and each object after it.
#[derive(Clone, Copy)]
struct Record<'a>(&'a Asdu);

impl<'a> fmt::Display for Record<'a> {
    fn fmt<W: fmt::Write>(&self, f: &mut fmt::Formatter<W>) -> fmt::Result {
        let asdu = self.0;
        let sequence = u8::from(asdu.sequence);
        let test = u8::from(asdu.test);
        let negative = u8::from(asdu.negative);
        write!(f, "{} {sequence} {test} {negative}", asdu.type_id)?;
        write!(
            f,
            " {} {} {} {}",
            asdu.cause, asdu.originator, asdu.address, asdu.count
        )?;
        for object in asdu.objects.iter().take(asdu.count) {
            write!(f, "{}", Shown(*object))?;
        }
        Ok(())
    }
}

pub fn show(reply: &mut Reply, given: &[u8]) -> Result<(), Wrong> {
    let read = asdu_read::read_asdu(given);
    read.answer?;
    write!(reply, "{}", Record(&read.asdu))?;
    Ok(())
}

pub fn rewrite(reply: &mut Reply, given: &[u8]) -> Result<(), Wrong> {
    let read = asdu_read::read_asdu(given);
    read.answer?;
    let mut out = [0; header::MAX_SIZE];
    let n = asdu_write::write_asdu(&read.asdu, &mut out)?;
    write!(reply, "{}", Hex(&out[..n.min(header::MAX_SIZE)]))?;
    Ok(())
}
