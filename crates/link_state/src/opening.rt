// Opening a link: data transfer starts with all counts 0, t3 set, the other timers unset.
ghost use Rattle.std.specs.Prelude.{◌≡◌};
ghost use Rattle.link_state.specs.Opening.{fresh_link, refused_opening, opened};

use crate::{Link, Queue, Receive, Settings, State, Status, Timers, Window, limits};
use apdu::frame::{ReceiveNumber, SendNumber};
use elements::refusals::Refusal;

// What opening answers; beside a refusal the link is all 0, clear and unset. Kept: a link and an answer, since document 01 has a
// link beside a refusal too (`RefusedLeaves`).
#[derive(Clone, Copy, Debug, PartialEq, Eq)]
pub struct OpenedLink {
    pub link: Link,
    pub answer: Result<(), Refusal>,
}

// A link with nothing outstanding, waiting or received.
#[tactic(auto, unfolding(crate::specs::Opening::fresh_link))]
fn fresh(settings: Settings, t3: Option<u64>, clock: u64) -> Link
    ensures { result ≡ fresh_link settings t3 clock }
{
    let state = State {
        queue: Queue {
            lengths: [0; 16],
            place: 0,
            count: 0,
        },
        settings,
        window: Window {
            first: 0,
            held: 0,
            next: SendNumber(0),
        },
        receive: Receive {
            next: ReceiveNumber(0),
            unconfirmed: 0,
        },
        timers: Timers {
            t1u: None,
            t2: None,
            t3,
            tests: 0,
        },
        status: Status {
            closed: false,
            reason: 0,
        },
        clock,
    };
    Link {
        times: [0; 32],
        state,
    }
}

#[tactic(auto, unfolding(crate::specs::Opening::refused_opening, crate::specs::Opening::blank_link))]
fn refused(r: Refusal) -> OpenedLink
    ensures { result ≡ refused_opening r }
{
    let settings = Settings {
        k: 0,
        w: 0,
        p: 0,
        t1: 0,
        t2: 0,
        t3: 0,
    };
    let link = fresh(settings, None, 0);
    OpenedLink {
        link,
        answer: Err(r),
    }
}

pub fn open(settings: Settings, moment: u64) -> OpenedLink
    ensures { result ≡ opened settings moment }
{
    if !limits::sound_settings(settings) {
        return refused(Refusal::OutsideLimits);
    }
    if limits::MAX_CLOCK < moment {
        return refused(Refusal::ClockTooLate);
    }
    let t3 = Some(moment + settings.t3);
    OpenedLink {
        link: fresh(settings, t3, moment),
        answer: Ok(()),
    }
}
