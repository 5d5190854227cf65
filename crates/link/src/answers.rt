// What an event answers, with the link after it.
use elements::refusals::Refusal;
use link_state::{Link, State};

// An accepted call: how many octets were written, whether the window is full, and whether an ASDU came with the frame.
#[derive(Clone, Copy, Debug, PartialEq, Eq)]
pub struct Done {
    pub written: usize,
    pub full: bool,
    pub came: bool,
}

// Kept: a link and an answer, since a refused call gives its link back too (`LinkCall`).
#[derive(Clone, Copy, Debug, PartialEq, Eq)]
pub struct Called {
    pub link: Link,
    pub answer: Result<Done, Refusal>,
}

// The same without the ring.
#[derive(Clone, Copy, Debug, PartialEq, Eq)]
pub struct Step {
    pub state: State,
    pub answer: Result<Done, Refusal>,
}
