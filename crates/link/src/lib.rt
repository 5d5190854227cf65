// The link of IEC 60870-5-104 (receive_handler.rs): what its events answer, and in specs/ what they are.
// The events stand in crates of their own: link_receive, link_send and link_time. Their `moment` is document 01's now: in
// contracts `now` is what a slice holds.
#![tactic(auto)]

pub mod answers;
