// Document 01's steps, one function for each, and the checks of open and offer, on the parts of a state that a call concerns: the round's numbers and one
// flow, and the line lent. No user calls them: the state's calls stand above, and what a step may count on is shown there.
#![tactic(auto)]

use model::{FLOW_LIMIT, Serving};

pub mod ask;
mod cells;
pub mod flow;
pub mod round;

// The line has one cell more than there are flows, always 0, so that taking the head out is one move of whole words.
pub const LINE_ROOM: usize = FLOW_LIMIT + 1;

// One flow. Weight 0 says that it is not open, as the model has it. The sizes of its waiting packets, each less one so that 256 fits a byte, are the digits of
// one number in base 256, the first packet's lowest, and no list, which would want the heap: so the first packet leaves by one division.
#[derive(Clone, Copy)]
pub struct FlowCell {
    pub weight: u16,
    pub surplus: u16,
    pub slot: u8,
    pub waiting: u8,
    pub sizes: u64,
}

// The round's numbers; `length` tells how many flows stand in the line. The line is lent beside it and is no Vec, since no call has a heap.
#[derive(Clone, Copy)]
pub struct RoundCell {
    pub length: u8,
    pub visits: u8,
    pub mark: u16,
    pub running: u16,
    pub turn: Serving,
}

// A packet's flow, its slot there and its size; of size 0 where there is no packet. Beside a reply it is no Option, which would
// say a second time whether a packet departs.
#[derive(Clone, Copy)]
pub struct Place {
    pub flow: usize,
    pub slot: usize,
    pub size: usize,
}
