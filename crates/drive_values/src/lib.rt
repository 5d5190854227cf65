// An information object as text: a space, its address, a colon and the fields of its value by their names. A mark is 0 or 1.
#![tactic(auto)]

use elements::information_elements::{Diq, Siq, Vti};
use elements::quality_descriptors::{Qds, SeqQd};
use objects::Object;
use objects::values::Value;
use std::fmt;

fn mark(set: bool) -> &'static str {
    if set { "1" } else { "0" }
}

#[derive(Clone, Copy)]
pub struct Shown(pub Object);

impl fmt::Display for Shown {
    fn fmt<W: fmt::Write>(&self, f: &mut fmt::Formatter<W>) -> fmt::Result {
        write!(f, " {}:{}", self.0.address, Fields(self.0.value))
    }
}

#[derive(Clone, Copy)]
struct Fields<T>(T);

impl fmt::Display for Fields<Value> {
    fn fmt<W: fmt::Write>(&self, f: &mut fmt::Formatter<W>) -> fmt::Result {
        match self.0 {
            Value::MSpNa1(siq) => write!(f, "{}", Fields(siq)),
            Value::MDpNa1(diq) => write!(f, "{}", Fields(diq)),
            Value::MStNa1(vti) => write!(f, "{}", Fields(vti)),
            Value::MBoNa1(qds, bits) => write!(f, "bits={bits},{}", Fields(qds)),
            Value::MMeNa1(n, qds) => write!(f, "value={n},{}", Fields(qds)),
            Value::MMeNb1(n, qds) => write!(f, "value={n},{}", Fields(qds)),
            Value::MMeNc1(qds, bits) => write!(f, "bits={bits},{}", Fields(qds)),
            Value::MItNa1(n, seq_qd) => write!(f, "value={n},{}", Fields(seq_qd)),
            Value::MMeNd1(n) => write!(f, "value={n}"),
            // A cause that was read is never refused.
            Value::MEiNa1(coi) => write!(f, "cause={}", coi.to_byte().unwrap_or(0)),
            Value::CIcNa1(qualifier) => write!(f, "qualifier={qualifier}"),
            Value::CCiNa1(qualifier) => write!(f, "qualifier={qualifier}"),
            Value::CRdNa1 => Ok(()),
        }
    }
}

// What the quality of every kind but a counter begins with: iv, nt, sb and bl.
#[derive(Clone, Copy)]
struct Marks(bool, bool, bool, bool);

impl fmt::Display for Marks {
    fn fmt<W: fmt::Write>(&self, f: &mut fmt::Formatter<W>) -> fmt::Result {
        let iv = mark(self.0);
        let nt = mark(self.1);
        let sb = mark(self.2);
        let bl = mark(self.3);
        write!(f, "iv={iv},nt={nt},sb={sb},bl={bl}")
    }
}

impl fmt::Display for Fields<Siq> {
    fn fmt<W: fmt::Write>(&self, f: &mut fmt::Formatter<W>) -> fmt::Result {
        let siq = self.0;
        let spi = siq.spi.to_byte();
        write!(f, "{},spi={spi}", Marks(siq.iv, siq.nt, siq.sb, siq.bl))
    }
}

impl fmt::Display for Fields<Diq> {
    fn fmt<W: fmt::Write>(&self, f: &mut fmt::Formatter<W>) -> fmt::Result {
        let diq = self.0;
        let dpi = diq.dpi.to_byte();
        write!(f, "{},dpi={dpi}", Marks(diq.iv, diq.nt, diq.sb, diq.bl))
    }
}

impl fmt::Display for Fields<Qds> {
    fn fmt<W: fmt::Write>(&self, f: &mut fmt::Formatter<W>) -> fmt::Result {
        let qds = self.0;
        let ov = mark(qds.ov);
        write!(f, "{},ov={ov}", Marks(qds.iv, qds.nt, qds.sb, qds.bl))
    }
}

impl fmt::Display for Fields<Vti> {
    fn fmt<W: fmt::Write>(&self, f: &mut fmt::Formatter<W>) -> fmt::Result {
        let vti = self.0;
        let transient = mark(vti.transient);
        write!(
            f,
            "value={},transient={transient},{}",
            vti.value,
            Fields(vti.qds)
        )
    }
}

impl fmt::Display for Fields<SeqQd> {
    fn fmt<W: fmt::Write>(&self, f: &mut fmt::Formatter<W>) -> fmt::Result {
        let iv = mark(self.0.iv);
        let ca = mark(self.0.ca);
        let cy = mark(self.0.cy);
        write!(f, "iv={iv},ca={ca},cy={cy},seq={}", self.0.seq)
    }
}
