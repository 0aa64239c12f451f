// The calls on packet bytes: document 01's store layer. A site is a scheduler whose packets lie in one store: only open, reset and the store
// calls drive it. The store is the caller's, and is lent to each call.
#![tactic(auto)]

ghost use Rattle.store.specs.Site.{Site as Parts};
ghost use Rattle.store.specs.Promised.{SoundSite, NewGives, OpenGives, OfferGives, DepartGives};

use model::{Outcome, Refusal, Reply};
use order::{Departed, State};
use std::marker::Model;

mod bytes;
pub mod lengths;
pub mod slots;

// The store is exactly 65,536 bytes.
pub const STORE_LENGTH: usize = 65_536;

// A scheduler whose packets lie in a store. Its state is its own: order-layer calls give no Site, so a chain of sites has store calls only.
#[derive(Clone, Copy)]
pub struct Site {
    order: State,
}

// Contracts see what it holds. Every site is one that calls gave.
impl Model for Site {
    ghost Value = { Parts };

    ghost view = { λ s. record { order = s.order } };

    ghost invariant = { λ s. SoundSite (record { order = s.order }) };

    ghost inverse = { λ s. record { order = s.order } };
}

impl Site {
    #[tactic(auto, using(crate::proofs::SiteLaws::new_law))]
    pub fn new() -> Site
        ensures { NewGives result }
    {
        Site {
            order: State::new(),
        }
    }

    pub fn reset(self) -> Site
        ensures { NewGives result }
    {
        Site::new()
    }

    #[tactic(auto, using(crate::proofs::SiteLaws::open_law))]
    pub fn open(self, f: usize, weight: usize) -> Outcome<Site, Result<(), Refusal>>
        ensures { OpenGives self f weight result }
    {
        let Outcome { state, reply } = self.order.open(f, weight);
        Outcome {
            state: Site { order: state },
            reply,
        }
    }

    pub fn offer(
        mut self,
        f: usize,
        packet: &[u8],
        store: &mut [u8],
    ) -> Outcome<Site, Result<(), Refusal>>
        ensures { OfferGives self f packet.now store.old store.new result }
    {
        let reply = self.take_offer(f, packet, store);
        Outcome { state: self, reply }
    }

    pub fn depart(mut self, store: &[u8], out: &mut [u8]) -> Outcome<Site, Reply>
        ensures { DepartGives self store.now out.old out.new result }
    {
        let reply = self.make_departure(store, out);
        Outcome { state: self, reply }
    }

    // An offer to a site that is lent, so that it is handed back in one place. Writes the packet's bytes in the slot that the flow's next packet takes.
    fn take_offer(&mut self, f: usize, packet: &[u8], store: &mut [u8]) -> Result<(), Refusal>
        ensures { OfferGives self.old f packet.now store.old store.new (record { state = self.new; reply = result }) }
    {
        let order = &mut self.order;
        lengths::may_offer(store)?;
        let place = order.take_offer(f, packet.len())?;
        slots::write(store, place.flow, place.slot, packet);
        Ok(())
    }

    // Copies the departing packet's bytes to the start of the outgoing buffer.
    fn make_departure(&mut self, store: &[u8], out: &mut [u8]) -> Reply
        ensures { DepartGives self.old store.now out.old out.new (record { state = self.new; reply = result }) }
    {
        let order = &mut self.order;
        if let Err(refusal) = lengths::may_depart(store, out) {
            return Reply::Refused(refusal);
        }
        let Departed { reply, from } = order.make_departure();
        // Where nothing departs the size is 0, and nothing is copied.
        slots::read(store, from.flow, from.slot, from.size, out);
        reply
    }
}
