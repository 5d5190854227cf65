// The steps that events are made of, one after the other.
ghost use Rattle.std.specs.Prelude.{◌≡◌, ℕ, ◌+◌, ◌≤◌, ◌<◌, List, length};
ghost use Rattle.std.proofs.lemmas.List.Edits.{sets};
ghost use Rattle.apdu.specs.Writing.{start_octets, s_octets};
ghost use Rattle.link.specs.Making.{freed_of, sent_of, confirmed_of, due, tested_of, ending, set_t1u, set_t3, start_t2, shut, hand_out};
ghost use Rattle.link.specs.Events.{start};
ghost use Rattle.elements.specs.Refusals.{number};
ghost use Rattle.link_state.specs.Limits.{call_refusal};
ghost use Rattle.link.specs.Answering.{CanRun, Ran, Comes, done_step, refused_step, refused_call, call_of, Timed, CanSend};
ghost use Rattle.link_steps.specs.Steps.{made_of, Makes, HandsOut};

use apdu::frame::SendNumber;
use apdu::writing;
use elements::refusals::Refusal;
use link::answers::{Called, Done, Step};
use link_state::{Link, Receive, State, Status, Window, limits};

pub const STOP_ACT: u16 = 0x13;

pub const STOP_CON: u16 = 0x23;

pub const TEST_ACT: u16 = 0x43;

pub const TEST_CON: u16 = 0x83;

// What a call has made so far: the state, and how many octets of the output are written. Kept: the ring, the pool and the
// output are lent, and stay parameters; a struct of `&mut`s has to ensure after each step that it holds the same ones yet.
#[derive(Clone, Copy, Debug, PartialEq, Eq)]
pub struct Made {
    pub state: State,
    pub end: usize,
}

#[tactic(auto, unfolding(link::specs::Answering::refused_step))]
pub fn refuse(s: State, r: Refusal) -> Step
    ensures { result ≡ refused_step s r }
{
    Step {
        state: s,
        answer: Err(r),
    }
}

#[tactic(auto, unfolding(link::specs::Making::shut))]
pub fn end_link(mut s: State, reason: u8) -> State
    ensures { result ≡ shut reason s }
{
    s.status = Status {
        closed: true,
        reason,
    };
    s
}

// A refusal that ends the link: only the closed mark and the reason are set.
pub fn close(s: State, r: Refusal) -> Step
    ensures { result ≡ refused_step (shut (number r) s) r }
{
    refuse(end_link(s, u8::from(r)), r)
}

// What the check of every call refuses.
pub fn refuse_call(l: Link, r: Refusal) -> Called
    ensures { result ≡ refused_call l r }
{
    Called {
        link: l,
        answer: Err(r),
    }
}

// An event's step joins the ring again.
pub fn end_call(times: [u64; 32], step: Step) -> Called
    ensures { result ≡ call_of times step }
{
    let state = step.state;
    let answer = step.answer;
    let link = Link { times, state };
    Called { link, answer }
}

// A call whose pool is only read: its check, then the event on a copy of the ring. `send` writes the pool too, so it has a
// body of its own: nothing is known of what a closure captured and wrote.
pub fn call<F: FnOnce(State, &mut [u64], &mut [u8]) -> Step>(
    l: Link,
    pool: usize,
    out: &mut [u8],
    moment: u64,
    event: F,
) -> Called
    requires { call_refusal l (length out.old) pool moment ≡ 0 → CanRun F.FnOnce event l.state l.times out.old }
    ensures { Comes (call_refusal l (length out.old) pool moment) l (Ran F.FnOnce event l.state l.times out.old) out.old result out.new }
{
    if let Err(r) = limits::check_call(l, out.len(), pool, moment) {
        return refuse_call(l, r);
    }
    let mut times = l.times;
    let step = event(l.state, &mut times, out);
    end_call(times, step)
}

#[tactic(auto, unfolding(link::specs::Making::freed_of))]
pub fn free(mut s: State, places: usize, freed: usize) -> State
    requires { (freed ≤ s.window.held) × (s.window.held ≤ places) × (s.window.first < places) × (places ≤ 32767) }
    ensures { result ≡ freed_of s places freed }
{
    s.window.first = (s.window.first + freed) % places;
    s.window.held -= freed;
    s
}

#[tactic(auto, unfolding(link::specs::Making::due))]
fn must_confirm(s: State, more: bool) -> bool
    ensures { result ≡ due s more }
{
    let count = s.receive.unconfirmed;
    ((s.settings.w < count) & !more) | (32768 <= count)
}

// One more frame is outstanding, and nothing is unconfirmed.
fn sent(s: State) -> State
    requires { (s.window.held ≤ 32767) × (s.window.next.0 ≤ 32767) }
    ensures { result ≡ sent_of s }
{
    State {
        window: Window {
            held: s.window.held + 1,
            next: SendNumber((s.window.next.0 + 1) % 32768),
            ..s.window
        },
        receive: Receive {
            unconfirmed: 0,
            ..s.receive
        },
        ..s
    }
}

impl Made {
    // Nothing is handed out yet.
    pub fn new(state: State) -> Made
        ensures { result ≡ made_of state 0 }
    {
        Made { state, end: 0 }
    }

    // A U frame with this first control octet.
    pub fn put_u(self, out: &mut [u8], octet: u16) -> Made
        requires { self.end + 6 ≤ length out.old }
        ensures value { result ≡ made_of self.state (self.end + 6) }
        ensures out_after { out.new ≡ sets out.old self.end (start_octets 4 octet 0) }
    {
        writing::put_start(out, self.end, 4, octet, 0);
        Made {
            end: self.end + 6,
            ..self
        }
    }

    // Kept as three, with `set_t3` and `start_t2`: a line or two each, on other fields.
    pub fn set_t1u(mut self, moment: u64) -> Made
        requires { Timed self.state moment }
        ensures { result ≡ made_of (set_t1u moment self.state) self.end }
    {
        self.state.timers.t1u = Some(moment + self.state.settings.t1);
        self
    }

    pub fn set_t3(mut self, moment: u64) -> Made
        requires { Timed self.state moment }
        ensures { result ≡ made_of (set_t3 moment self.state) self.end }
    {
        self.state.timers.t3 = Some(moment + self.state.settings.t3);
        self
    }

    // t2 is set if unset.
    pub fn start_t2(mut self, moment: u64) -> Made
        requires { Timed self.state moment }
        ensures { result ≡ made_of (start_t2 moment self.state) self.end }
    {
        let due = moment + self.state.settings.t2;
        self.state.timers.t2 = self.state.timers.t2.or(Some(due));
        self
    }

    // An S frame, unconfirmed count 0, t2 unset.
    pub fn confirm(mut self, out: &mut [u8]) -> Made
        requires { (self.end + 6 ≤ length out.old) × (self.state.receive.next.0 ≤ 32767) }
        ensures value { result ≡ made_of (confirmed_of self.state) (self.end + 6) }
        ensures out_after { out.new ≡ sets out.old self.end (s_octets self.state.receive.next.0) }
    {
        writing::put_start(out, self.end, 4, 1, self.state.receive.next.0 * 2);
        self.state.timers.t2 = None;
        self.state.receive.unconfirmed = 0;
        self.end += 6;
        self
    }

    // The end of every accepted call that does not end the link: the clock, then the rule of confirming.
    pub fn finish(mut self, out: &mut [u8], more: bool, moment: u64) -> Made
        requires { (self.end + 6 ≤ length out.old) × (self.state.receive.next.0 ≤ 32767) }
        ensures { (ts : List ℕ) → Makes (ending more moment (start self.state ts)) self.end out.old result out.new }
    {
        self.state.clock = moment;
        if must_confirm(self.state, more) {
            return self.confirm(out);
        }
        self
    }

    // A test act goes out: one more open, t3 and t1 of U frames set.
    #[tactic(auto, unfolding(link::specs::Making::tested_of))]
    pub fn send_test(mut self, out: &mut [u8], moment: u64) -> Made
        requires { (self.end + 6 ≤ length out.old) × (self.state.timers.tests ≤ 3) × Timed self.state moment }
        ensures value { result ≡ made_of (tested_of moment self.state) (self.end + 6) }
        ensures out_after { out.new ≡ sets out.old self.end (start_octets 4 67 0) }
    {
        writing::put_start(out, self.end, 4, TEST_ACT, 0);
        self.state.timers.t1u = Some(moment + self.state.settings.t1);
        self.state.timers.t3 = Some(moment + self.state.settings.t3);
        self.state.timers.tests += 1;
        self.end += 6;
        self
    }

    // An I frame with this ASDU goes out; its send time is the call's.
    pub fn hand_out(self, times: &mut [u64], out: &mut [u8], asdu: &[u8], moment: u64) -> Made
        requires { CanSend self.state (length times.old) (length out.old) self.end (length asdu.now) }
        ensures { HandsOut (hand_out moment asdu.now (start self.state times.old)) self.end out.old result times.new out.new }
    {
        let s = self.state;
        let size = asdu.len();
        let body = self.end + 6;
        let place = (s.window.first + s.window.held) % times.len();
        times[place] = moment;
        let a = s.window.next.0 * 2;
        let b = s.receive.next.0 * 2;
        writing::put_start(&mut *out, self.end, (4 + size) as u8, a, b);
        laws::put_octets(out, body, asdu);
        Made {
            state: sent(s),
            end: body + size,
        }
    }

    // The call is accepted.
    #[tactic(auto, unfolding(link::specs::Answering::done_step, link::specs::Making::window_full))]
    pub fn accept(self, came: bool) -> Step
        ensures { result ≡ done_step self.state self.end came }
    {
        let s = self.state;
        let done = Done {
            written: self.end,
            full: s.settings.k <= s.window.held,
            came,
        };
        Step {
            state: s,
            answer: Ok(done),
        }
    }
}
