// Stop, Test and Tick: what the user or the clock calls for. None of them changes the ring or the pool.
#![tactic(auto)]

ghost use Rattle.std.specs.Prelude.{◌≡◌, ℕ, ◌+◌, ◌≤◌, length, List};
ghost use Rattle.std.proofs.lemmas.List.Edits.{sets};
ghost use Rattle.link.specs.Frames.{wire};
ghost use Rattle.elements.specs.Refusals.{answer};
ghost use Rattle.link.specs.Events.{start, is_due, t1i_due, tick_refusal, ticked_t2, ticked_t3, on_stop, on_test, on_tick, called, stop, test, tick};
ghost use Rattle.link.specs.Answering.{Answers, Calm, Aged, called_of};
ghost use Rattle.link_steps.specs.Steps.{Makes};

use elements::refusals::Refusal;
use link::answers::{Called, Step};
use link_state::{Link, State};
use link_steps::steps;
use link_steps::steps::Made;

fn on_stop(s: State, out: &mut [u8], moment: u64) -> Step
    requires { Calm s (length out.old) moment }
    ensures { (ts ps : List ℕ) → Answers (on_stop s ts ps moment) out.old result out.new }
{
    let said = Made::new(s)
        .put_u(&mut *out, steps::STOP_ACT)
        .confirm(&mut *out);
    let timed = said.set_t1u(moment);
    timed.finish(out, false, moment).accept(false)
}

fn on_test(s: State, out: &mut [u8], moment: u64) -> Step
    requires { Calm s (length out.old) moment }
    ensures { (ts ps : List ℕ) → Answers (on_test s ts ps moment) out.old result out.new }
{
    if 2 < s.timers.tests {
        return steps::close(s, Refusal::TooManyTests);
    }
    Made::new(s)
        .send_test(&mut *out, moment)
        .finish(out, false, moment)
        .accept(false)
}

fn is_due(d: Option<u64>, moment: u64) -> bool
    ensures { result ≡ is_due d moment }
{
    d.is_some_and(|at| at <= moment)
}

// t1 of I frames: t1 after the oldest outstanding send time.
#[tactic(auto, unfolding(link::specs::Events::t1i_due))]
fn oldest_is_due(s: State, times: &[u64], moment: u64) -> bool
    requires { Aged s times.now }
    ensures { result ≡ t1i_due s times.now moment }
{
    if s.window.held == 0 {
        return false;
    }
    times[s.window.first] + s.settings.t1 <= moment
}

#[tactic(auto, unfolding(link::specs::Events::tick_refusal, link::specs::Events::too_many, elements::specs::Refusals::refusal))]
fn check_tick(s: State, times: &[u64], moment: u64) -> Result<(), Refusal>
    requires { Aged s times.now }
    ensures { result ≡ answer (tick_refusal s times.now moment) tt }
{
    if is_due(s.timers.t1u, moment) {
        return Err(Refusal::UTimedOut);
    }
    if oldest_is_due(s, times, moment) {
        return Err(Refusal::ITimedOut);
    }
    if is_due(s.timers.t3, moment) & (2 < s.timers.tests) {
        return Err(Refusal::TooManyTests);
    }
    Ok(())
}

// t2 due confirms.
fn tick_t2(s: State, out: &mut [u8], moment: u64) -> Made
    requires { Calm s (length out.old) moment }
    ensures { (ts : List ℕ) → Makes (ticked_t2 moment (start s ts)) 0 out.old result out.new }
{
    let made = Made::new(s);
    if is_due(s.timers.t2, moment) {
        return made.confirm(out);
    }
    made
}

// Then t3 due acts as Test.
fn tick_t3(m: Made, t3: Option<u64>, out: &mut [u8], moment: u64) -> Made
    requires { Calm m.state (length out.old) moment × (m.end ≤ 6) }
    ensures { (ts : List ℕ) → Makes (ticked_t3 t3 moment (start m.state ts)) m.end out.old result out.new }
{
    if is_due(t3, moment) {
        return m.send_test(out, moment);
    }
    m
}

fn on_tick(s: State, times: &[u64], out: &mut [u8], moment: u64) -> Step
    requires { Calm s (length out.old) moment × Aged s times.now }
    ensures { (ps : List ℕ) → Answers (on_tick s times.now ps moment) out.old result out.new }
{
    if let Err(r) = check_tick(s, times, moment) {
        return steps::close(s, r);
    }
    let confirmed = tick_t2(s, &mut *out, moment);
    let tested = tick_t3(confirmed, s.timers.t3, &mut *out, moment);
    tested.finish(out, false, moment).accept(false)
}

pub fn stop(l: Link, pool: &[u8], out: &mut [u8], moment: u64) -> Called
    ensures value { result ≡ called_of (called stop l pool.now (length out.old) moment) }
    ensures out_after { out.new ≡ sets out.old 0 (wire (called stop l pool.now (length out.old) moment).frames) }
{
    steps::call(l, pool.len(), out, moment, |s, _, out| {
        on_stop(s, out, moment)
    })
}

pub fn test(l: Link, pool: &[u8], out: &mut [u8], moment: u64) -> Called
    ensures value { result ≡ called_of (called test l pool.now (length out.old) moment) }
    ensures out_after { out.new ≡ sets out.old 0 (wire (called test l pool.now (length out.old) moment).frames) }
{
    steps::call(l, pool.len(), out, moment, |s, _, out| {
        on_test(s, out, moment)
    })
}

pub fn tick(l: Link, pool: &[u8], out: &mut [u8], moment: u64) -> Called
    ensures value { result ≡ called_of (called tick l pool.now (length out.old) moment) }
    ensures out_after { out.new ≡ sets out.old 0 (wire (called tick l pool.now (length out.old) moment).frames) }
{
    steps::call(l, pool.len(), out, moment, |s, times, out| {
        on_tick(s, times, out, moment)
    })
}
