// ASDUs that wait in the pool: one more put there, and those that go out while the window is open.
ghost use Rattle.std.specs.Prelude.{◌≡◌, ◌+◌, ◌*◌, ◌≤◌, length};
ghost use Rattle.std.proofs.lemmas.List.Edits.{sets};
ghost use Rattle.link.specs.Making.{with_queue, shifted, queued, free_slot, let_out, flushed, room, send_waiting};
ghost use Rattle.link.specs.Events.{start};
ghost use Rattle.link.specs.Answering.{CanLetOut, CanFlush, Open};
ghost use Rattle.link_steps.specs.Steps.{HandsOut};

use crate::steps::Made;
use link_state::State;

// Octets of a slot. Kept: the pool is in slots of one size, since the caller lends it and there is no heap.
const SLOT: usize = 249;

pub fn enqueue(mut s: State, pool: &mut [u8], asdu: &[u8]) -> State
    requires { (s.queue.place ≤ 15) × (s.queue.count ≤ 15) × (length asdu.now ≤ 249) × (3984 ≤ length pool.old) }
    ensures value { result ≡ with_queue s (queued s.queue (length asdu.now)) }
    ensures pool_after { pool.new ≡ sets pool.old (free_slot s.queue * 249) asdu.now }
{
    let place = (s.queue.place + s.queue.count) % 16;
    laws::put_octets(pool, place * SLOT, asdu);
    s.queue.lengths[place] = asdu.len();
    s.queue.count += 1;
    s
}

// The queue without its first.
#[tactic(auto, unfolding(link::specs::Making::shifted))]
fn shift(mut s: State) -> State
    requires { (s.queue.place ≤ 15) × (1 ≤ s.queue.count) }
    ensures { result ≡ with_queue s (shifted s.queue) }
{
    s.queue.place = (s.queue.place + 1) % 16;
    s.queue.count -= 1;
    s
}

// The first that waits goes out.
fn let_out(made: Made, times: &mut [u64], pool: &[u8], out: &mut [u8], moment: u64) -> Made
    requires { CanLetOut made.state (length times.old) (length pool.now) (length out.old) made.end }
    ensures { HandsOut (let_out moment pool.now (start made.state times.old)) made.end out.old result times.new out.new }
{
    let q = made.state.queue;
    let from = q.place * SLOT;
    let to = from + q.lengths[q.place];
    let handed = made.hand_out(times, out, &pool[from..to], moment);
    Made {
        state: shift(handed.state),
        ..handed
    }
}

// The first n that wait go out.
fn flush(s: State, times: &mut [u64], pool: &[u8], out: &mut [u8], n: usize, moment: u64) -> Made
    requires { CanFlush s n (length times.old) (length pool.now) (length out.old) }
    ensures { HandsOut (flushed n moment pool.now (start s times.old)) 0 out.old result times.new out.new }
{
    let mut made = Made::new(s);
    for _ in 0..n {
        made = let_out(made, &mut *times, pool, &mut *out, moment);
    }
    made
}

#[tactic(auto, unfolding(link::specs::Making::room))]
fn room_of(s: State) -> usize
    requires { s.window.held ≤ s.settings.k }
    ensures { result ≡ room s }
{
    s.queue.count.min(s.settings.k - s.window.held)
}

pub fn send_waiting(s: State, times: &mut [u64], pool: &[u8], out: &mut [u8], moment: u64) -> Made
    requires { Open s (length times.old) (length pool.now) (length out.old) moment }
    ensures { HandsOut (send_waiting moment pool.now (start s times.old)) 0 out.old result times.new out.new }
{
    let n = room_of(s);
    flush(s, times, pool, out, n, moment)
}
