// Random calls of the order layer: the part `order` of reference/CALLS.md.
#![tactic(auto)]

use order::State;
use test_runs::buffers::{lent_mut, rising};
use test_runs::draws::{Call, Kind};
use test_runs::tally::{Said, Tally};
use test_runs::{BorrowingLayer, Layer};

// The list that bursts write in.
pub const LIST_ROOM: usize = 272;

// A state. Bursts are lent the first bytes of a list.
#[derive(Clone, Copy)]
pub struct BorrowingSizes {
    state: State,
}

impl BorrowingSizes {
    pub fn new() -> BorrowingSizes {
        BorrowingSizes {
            state: State::new(),
        }
    }
}

impl BorrowingLayer for BorrowingSizes {
    fn make(&mut self, call: &Call, list: &mut [u8], _: &mut [u8], tally: &mut Tally) {
        let state = self.state;
        self.state = match call.kind {
            Kind::Reset => {
                tally.said(Said::Reset);
                state.reset()
            }
            Kind::Open => {
                let opened = state.open(call.flow, call.weight);
                tally.answered(opened.reply, Said::Opened);
                opened.state
            }
            Kind::Offer => {
                let offered = state.offer(call.flow, call.size);
                tally.answered(offered.reply, Said::Accepted);
                offered.state
            }
            Kind::Depart => {
                let left = state.depart();
                tally.departed(left.reply.reply);
                left.state
            }
            Kind::Burst => {
                let sent = state.burst(call.departures, lent_mut(list, call.list));
                tally.burst(sent.reply);
                tally.fold_all(list);
                sent.state
            }
        };
    }
}

// A state, and the list, of which bursts are lent the first bytes.
#[derive(Drop)]
pub struct Sizes {
    layer: BorrowingSizes,
    list: [u8; LIST_ROOM],
}

impl Sizes {
    pub fn new() -> Sizes {
        let mut list = [0; LIST_ROOM];
        rising(&mut list, 0, 5);
        Sizes {
            layer: BorrowingSizes::new(),
            list,
        }
    }
}

impl Layer for Sizes {
    fn make(&mut self, call: &Call, tally: &mut Tally) {
        self.layer.make(call, &mut self.list, &mut [], tally);
    }

    fn kept(&self) -> &[u8] {
        &self.list
    }
}
