// The check of every call: 19, 20, 23, 24, 22 and 21, in this order.
ghost use Rattle.std.specs.Prelude.{◌≡◌, ◌≤◌};
ghost use Rattle.elements.specs.Refusals.{answer};
ghost use Rattle.link_state.specs.Limits.{sound_settings, sound_counts, sound_deadline, sound_timers, sound_times, sound_lengths, sound_link, call_refusal};

use crate::{Link, Queue, Settings, State, Timers};
use elements::refusals::Refusal;

// 48 hours.
pub const MAX_TIME: u64 = 172_800_000;

// The last moment of a clock of 48 bits.
pub const MAX_CLOCK: u64 = 281_474_976_710_655;

// A call writes at most 16 I frames of 255 octets and two frames of 6: 4,092.
pub const MIN_OUTPUT: usize = 4096;

// 16 slots of 249 octets.
pub const MIN_POOL: usize = 3984;

#[tactic(auto, unfolding(crate::specs::Limits::sound_settings))]
pub(crate) fn sound_settings(s: Settings) -> bool
    ensures { result ≡ sound_settings s }
{
    (1 <= s.k)
        & (s.k <= 32)
        & (1 <= s.w)
        & (s.w <= 32767)
        & (1 <= s.p)
        & (s.p <= 16)
        & (1 <= s.t1)
        & (s.t1 <= MAX_TIME)
        & (1 <= s.t2)
        & (s.t2 <= MAX_TIME)
        & (1 <= s.t3)
        & (s.t3 <= MAX_TIME)
}

// The clauses on counts, numbers, places and the clock.
#[tactic(auto, unfolding(crate::specs::Limits::sound_counts))]
fn sound_counts(s: State) -> bool
    ensures { result ≡ sound_counts s }
{
    (s.window.held <= s.settings.k)
        & (s.queue.count <= s.settings.p)
        & ((s.queue.count == 0) | (s.settings.k <= s.window.held))
        & (s.window.next.0 <= 32767)
        & (s.receive.next.0 <= 32767)
        & (s.receive.unconfirmed <= 32767)
        & (s.window.first <= 31)
        & (s.queue.place <= 15)
        & (s.timers.tests <= 3)
        & (s.clock <= MAX_CLOCK)
}

fn sound_lengths(q: Queue) -> bool
    requires { (q.count ≤ 16) × (q.place ≤ 15) }
    ensures { result ≡ sound_lengths q }
{
    (0..q.count).all(|i| {
        let n = q.lengths[(q.place + i) % 16];
        (6 <= n) & (n <= 249)
    })
}

fn sound_times(l: Link) -> bool
    requires { (l.state.window.held ≤ 32) × (l.state.window.first ≤ 31) }
    ensures { result ≡ sound_times l }
{
    let s = l.state;
    (0..s.window.held).all(|i| l.times[(s.window.first + i) % 32] <= s.clock)
}

fn sound_deadline(d: Option<u64>, clock: u64) -> bool
    requires { clock ≤ 281474976710655 }
    ensures { result ≡ sound_deadline d clock }
{
    d.is_none_or(|at| at <= clock + MAX_TIME)
}

#[tactic(auto, unfolding(crate::specs::Limits::sound_timers))]
fn sound_timers(t: Timers, clock: u64) -> bool
    requires { clock ≤ 281474976710655 }
    ensures { result ≡ sound_timers t clock }
{
    sound_deadline(t.t1u, clock) & sound_deadline(t.t2, clock) & sound_deadline(t.t3, clock)
}

fn sound_link(l: Link) -> bool
    ensures { result ≡ sound_link l }
{
    let s = l.state;
    if !sound_settings(s.settings) {
        return false;
    }
    if !sound_counts(s) {
        return false;
    }
    sound_times(l) & sound_lengths(s.queue) & sound_timers(s.timers, s.clock)
}

#[tactic(auto, unfolding(crate::specs::Limits::call_refusal, elements::specs::Refusals::refusal))]
pub fn check_call(l: Link, output: usize, pool: usize, moment: u64) -> Result<(), Refusal>
    ensures { result ≡ answer (call_refusal l output pool moment) tt }
{
    if !sound_link(l) {
        return Err(Refusal::OutsideLimits);
    }
    if l.state.status.closed {
        return Err(Refusal::LinkClosed);
    }
    if output < MIN_OUTPUT {
        return Err(Refusal::LinkOutputTooShort);
    }
    if pool < MIN_POOL {
        return Err(Refusal::PoolTooShort);
    }
    if MAX_CLOCK < moment {
        return Err(Refusal::ClockTooLate);
    }
    if moment < l.state.clock {
        return Err(Refusal::ClockWentBack);
    }
    Ok(())
}
