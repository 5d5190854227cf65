// Send: an ASDU to send goes out at once, or waits in the pool.
#![tactic(auto)]

ghost use Rattle.std.specs.Prelude.{◌≡◌, ℕ, ◌≤◌, ◌<◌, List, length, false};
ghost use Rattle.std.proofs.lemmas.List.Edits.{sets};
ghost use Rattle.link.specs.Frames.{wire};
ghost use Rattle.link.specs.Making.{hand_out, ending};
ghost use Rattle.link.specs.Events.{start, accepting, send_plain, on_send, called, send};
ghost use Rattle.link.specs.Answering.{Does, DoesSend, Open, called_of};

use asdu::Form;
use elements::refusals::Refusal;
use link::answers::{Called, Step};
use link_state::{Link, State, limits};
use link_steps::steps::Made;
use link_steps::{steps, waiting};

// The window is open.
fn send_now(s: State, times: &mut [u64], out: &mut [u8], asdu: &[u8], moment: u64) -> Step
    requires { Open s (length times.old) 3984 (length out.old) moment × (s.window.held < s.settings.k) × (length asdu.now ≤ 249) }
    ensures { (ps : List ℕ) → Does (accepting false ps (ending false moment (hand_out moment asdu.now (start s times.old)))) out.old result times.new out.new }
{
    Made::new(s)
        .hand_out(times, &mut *out, asdu, moment)
        .finish(out, false, moment)
        .accept(false)
}

fn send_plain(
    s: State,
    times: &mut [u64],
    pool: &mut [u8],
    out: &mut [u8],
    asdu: &[u8],
    moment: u64,
) -> Step
    requires { Open s (length times.old) (length pool.old) (length out.old) moment × (length asdu.now ≤ 249) }
    ensures { DoesSend (send_plain asdu.now s times.old pool.old moment) out.old result times.new pool.new out.new }
{
    if s.window.held < s.settings.k {
        return send_now(s, times, out, asdu, moment);
    }
    if s.settings.p <= s.queue.count {
        return steps::refuse(s, Refusal::QueueFull);
    }
    Made::new(waiting::enqueue(s, pool, asdu))
        .finish(out, false, moment)
        .accept(false)
}

fn on_send(
    s: State,
    times: &mut [u64],
    pool: &mut [u8],
    out: &mut [u8],
    asdu: &[u8],
    moment: u64,
) -> Step
    requires { Open s (length times.old) (length pool.old) (length out.old) moment }
    ensures { DoesSend (on_send asdu.now s times.old pool.old moment) out.old result times.new pool.new out.new }
{
    match asdu_plain::plain_asdu(asdu) {
        Ok(Form::Plain) => send_plain(s, times, pool, out, asdu, moment),
        Ok(Form::Reserved) => steps::refuse(s, Refusal::NotPlainForm),
        Err(r) => steps::refuse(s, r),
    }
}

pub fn send(l: Link, pool: &mut [u8], out: &mut [u8], asdu: &[u8], moment: u64) -> Called
    ensures value { result ≡ called_of (called (send asdu.now) l pool.old (length out.old) moment) }
    ensures pool_after { pool.new ≡ (called (send asdu.now) l pool.old (length out.old) moment).pool }
    ensures out_after { out.new ≡ sets out.old 0 (wire (called (send asdu.now) l pool.old (length out.old) moment).frames) }
{
    if let Err(r) = limits::check_call(l, out.len(), pool.len(), moment) {
        return steps::refuse_call(l, r);
    }
    let mut times = l.times;
    let step = on_send(l.state, &mut times, pool, out, asdu, moment);
    steps::end_call(times, step)
}
