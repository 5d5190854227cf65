// Frame: a frame received, with the mark "more to come". It is checked with no record built; its ASDU, if one came, is
// had by reading the frame (`apdu::reading::asdu_of`).
#![tactic(auto)]

ghost use Rattle.std.specs.Prelude.{◌≡◌, ℕ, ◌+◌, ◌≤◌, List, length, false};
ghost use Rattle.std.proofs.lemmas.List.Edits.{sets};
ghost use Rattle.link.specs.Frames.{wire};
ghost use Rattle.link.specs.Events.{release, received, tests_answered, test_acted, test_confirmed, stopped, on_s, on_i, on_u, on_frame, called, frame};
ghost use Rattle.link.specs.Answering.{Answers, Does, Timed, Calm, Open, done_step, called_of};
ghost use Rattle.link_steps.specs.Steps.{HandsOut};

use apdu::frame::{Frame, ReceiveNumber, SendNumber, UFrame};
use apdu::reading;
use elements::refusals::Refusal;
use link::answers::{Called, Step};
use link_state::{Link, State, acknowledging};
use link_steps::steps::Made;
use link_steps::{steps, waiting};

// The oldest frames are confirmed, and what waits goes out as far as the window takes it.
fn release(
    s: State,
    times: &mut [u64],
    pool: &[u8],
    out: &mut [u8],
    freed: usize,
    moment: u64,
) -> Made
    requires { Open s (length times.old) (length pool.now) (length out.old) moment × (freed ≤ s.window.held) }
    ensures { HandsOut (release freed moment s times.old pool.now) 0 out.old result times.new out.new }
{
    let m = steps::free(s, times.len(), freed);
    waiting::send_waiting(m, times, pool, out, moment)
}

fn on_s(
    s: State,
    times: &mut [u64],
    pool: &[u8],
    out: &mut [u8],
    number: ReceiveNumber,
    more: bool,
    moment: u64,
) -> Step
    requires { Open s (length times.old) (length pool.now) (length out.old) moment }
    ensures { Does (on_s number.0 s times.old pool.now more moment) out.old result times.new out.new }
{
    let freed = match acknowledging::acknowledge(s.window.next, s.window.held, number) {
        Ok(freed) => freed,
        Err(r) => return steps::close(s, r),
    };
    release(s, times, pool, &mut *out, freed, moment)
        .set_t3(moment)
        .finish(out, more, moment)
        .accept(false)
}

fn receive_one(mut s: State) -> State
    requires { (s.receive.next.0 ≤ 32767) × (s.receive.unconfirmed ≤ 32767) }
    ensures { result ≡ received s }
{
    s.receive.next.0 = (s.receive.next.0 + 1) % 32768;
    s.receive.unconfirmed += 1;
    s
}

fn on_i(
    s: State,
    times: &mut [u64],
    pool: &[u8],
    out: &mut [u8],
    sent: SendNumber,
    number: ReceiveNumber,
    more: bool,
    moment: u64,
) -> Step
    requires { Open s (length times.old) (length pool.now) (length out.old) moment × (s.receive.unconfirmed ≤ 32767) }
    ensures { Does (on_i sent.0 number.0 s times.old pool.now more moment) out.old result times.new out.new }
{
    if sent.0 != s.receive.next.0 {
        return steps::close(s, Refusal::WrongSendNumber);
    }
    let freed = match acknowledging::acknowledge(s.window.next, s.window.held, number) {
        Ok(freed) => freed,
        Err(r) => return steps::close(s, r),
    };
    release(receive_one(s), times, pool, &mut *out, freed, moment)
        .start_t2(moment)
        .set_t3(moment)
        .finish(out, more, moment)
        .accept(true)
}

// Test con: no test is open any more.
fn tests_answered(mut s: State) -> State
    ensures { result ≡ tests_answered s }
{
    s.timers.t1u = None;
    s.timers.tests = 0;
    s
}

// Test act is answered by test con.
fn on_test_act(s: State, out: &mut [u8], more: bool, moment: u64) -> Step
    requires { Calm s (length out.old) moment }
    ensures { (ts ps : List ℕ) → Answers (test_acted s ts ps more moment) out.old result out.new }
{
    let said = Made::new(s).put_u(&mut *out, steps::TEST_CON);
    let timed = said.set_t3(moment);
    timed.finish(out, more, moment).accept(false)
}

fn on_test_con(s: State, out: &mut [u8], more: bool, moment: u64) -> Step
    requires { Calm s (length out.old) moment }
    ensures { (ts ps : List ℕ) → Answers (test_confirmed s ts ps more moment) out.old result out.new }
{
    Made::new(tests_answered(s))
        .set_t3(moment)
        .finish(out, more, moment)
        .accept(false)
}

// A stop ends the link with reason 0.
fn end_by_stop(made: Made, moment: u64) -> Step
    requires { Timed made.state moment }
    ensures { result ≡ done_step (stopped moment made.state) made.end false }
{
    let mut timed = made.set_t3(moment);
    timed.state.clock = moment;
    timed.state = steps::end_link(timed.state, 0);
    timed.accept(false)
}

fn on_u(s: State, out: &mut [u8], u: UFrame, more: bool, moment: u64) -> Step
    requires { Calm s (length out.old) moment }
    ensures { (ts ps : List ℕ) → Answers (on_u u s ts ps more moment) out.old result out.new }
{
    match u16::from(u.to_byte()) {
        steps::TEST_ACT => on_test_act(s, out, more, moment),
        steps::TEST_CON => on_test_con(s, out, more, moment),
        steps::STOP_ACT => end_by_stop(Made::new(s).put_u(out, steps::STOP_CON), moment),
        steps::STOP_CON => end_by_stop(Made::new(s), moment),
        _ => steps::close(s, Refusal::UNotAnswered),
    }
}

fn on_frame(
    s: State,
    times: &mut [u64],
    pool: &[u8],
    out: &mut [u8],
    f: &[u8],
    more: bool,
    moment: u64,
) -> Step
    requires { Open s (length times.old) (length pool.now) (length out.old) moment × (s.receive.unconfirmed ≤ 32767) }
    ensures { Does (on_frame f.now more s times.old pool.now moment) out.old result times.new out.new }
{
    match reading::read_frame(f) {
        Ok(Frame::I(sent, number)) => on_i(s, times, pool, out, sent, number, more, moment),
        Ok(Frame::S(number)) => on_s(s, times, pool, out, number, more, moment),
        Ok(Frame::U(u)) => on_u(s, out, u, more, moment),
        Err(r) => steps::close(s, r),
    }
}

pub fn receive(l: Link, pool: &[u8], out: &mut [u8], f: &[u8], more: bool, moment: u64) -> Called
    ensures value { result ≡ called_of (called (frame f.now more) l pool.now (length out.old) moment) }
    ensures out_after { out.new ≡ sets out.old 0 (wire (called (frame f.now more) l pool.now (length out.old) moment).frames) }
{
    steps::call(l, pool.len(), out, moment, |s, times, out| {
        on_frame(s, times, pool, out, f, more, moment)
    })
}
