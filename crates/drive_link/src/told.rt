// What a call told: the number of the refusal (0 for none), what was written, and how the link stands after it.
use link::answers::{Called, Done};
use std::fmt;
use test_text::octets::Hex;

#[derive(Clone, Copy)]
pub(crate) struct Told<'a> {
    pub(crate) called: Called,
    pub(crate) out: &'a [u8],
}

impl<'a> Told<'a> {
    fn number(&self) -> u8 {
        match self.called.answer {
            Ok(_) => 0,
            Err(refusal) => u8::from(refusal),
        }
    }

    // Beside a refusal nothing was written and nothing came; the window is what it is.
    fn done(&self) -> Done {
        match self.called.answer {
            Ok(done) => done,
            Err(_) => {
                let state = self.called.link.state;
                Done {
                    written: 0,
                    full: state.settings.k <= state.window.held,
                    came: false,
                }
            }
        }
    }
}

impl<'a> fmt::Display for Told<'a> {
    fn fmt<W: fmt::Write>(&self, f: &mut fmt::Formatter<W>) -> fmt::Result {
        let done = self.done();
        let written = done.written.min(self.out.len());
        write!(f, "{} {}", self.number(), Hex(&self.out[..written]))?;
        write!(
            f,
            " full={} came={}",
            u8::from(done.full),
            u8::from(done.came)
        )?;
        let state = self.called.link.state;
        write!(
            f,
            " held={} waiting={}",
            state.window.held, state.queue.count
        )?;
        let status = state.status;
        write!(
            f,
            " closed={} reason={}",
            u8::from(status.closed),
            status.reason
        )
    }
}
