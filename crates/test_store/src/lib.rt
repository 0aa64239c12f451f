// Random calls of the store layer: the part `store` of reference/CALLS.md.
#![tactic(auto)]

use store::{STORE_LENGTH, Site};
use test_runs::buffers::{lent, lent_mut, rising, staggered};
use test_runs::draws::{Call, Kind};
use test_runs::tally::{Said, Tally};
use test_runs::{BorrowingLayer, Layer};

// The longest packet that is offered.
const PACKET_ROOM: usize = 258;

// The store's bytes, and two behind them, so that too long a store can be lent.
pub const STORE_ROOM: usize = STORE_LENGTH + 2;

// The outgoing buffer.
pub const OUT_ROOM: usize = 258;

// A site. Calls are lent the first bytes of a store and of an outgoing buffer.
#[derive(Clone, Copy)]
pub struct BorrowingBytes {
    site: Site,
}

impl BorrowingBytes {
    pub fn new() -> BorrowingBytes {
        BorrowingBytes { site: Site::new() }
    }
}

impl BorrowingLayer for BorrowingBytes {
    fn make(&mut self, call: &Call, store: &mut [u8], out: &mut [u8], tally: &mut Tally) {
        let site = self.site;
        self.site = match call.kind {
            Kind::Reset => {
                tally.said(Said::Reset);
                site.reset()
            }
            Kind::Open => {
                let opened = site.open(call.flow, call.weight);
                tally.answered(opened.reply, Said::Opened);
                opened.state
            }
            Kind::Offer => {
                let mut packet = [0; PACKET_ROOM];
                rising(&mut packet, call.first, call.step);
                let offered = site.offer(
                    call.flow,
                    lent(&packet, call.length),
                    lent_mut(store, call.store),
                );
                tally.answered(offered.reply, Said::Accepted);
                offered.state
            }
            Kind::Depart | Kind::Burst => {
                let left = site.depart(lent(store, call.store), lent_mut(out, call.out));
                tally.departed(left.reply);
                tally.fold_all(out);
                left.state
            }
        };
    }
}

// A site, and the store and the outgoing buffer, of which calls are lent the first bytes.
#[derive(Drop)]
pub struct Bytes {
    layer: BorrowingBytes,
    store: [u8; STORE_ROOM],
    out: [u8; OUT_ROOM],
}

impl Bytes {
    pub fn new() -> Bytes {
        let mut store = [0; STORE_ROOM];
        staggered(&mut store);
        let mut out = [0; OUT_ROOM];
        rising(&mut out, 0, 3);
        Bytes {
            layer: BorrowingBytes::new(),
            store,
            out,
        }
    }
}

impl Layer for Bytes {
    fn make(&mut self, call: &Call, tally: &mut Tally) {
        self.layer.make(call, &mut self.store, &mut self.out, tally);
    }

    fn kept(&self) -> &[u8] {
        &self.store
    }
}
