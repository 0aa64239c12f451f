// What the steps do to one flow. Why most ask for a flow that is ready, `round` says.
ghost use Rattle.std.specs.Prelude.{◌≡◌, ◌≤◌, ◌<◌, ◌-◌, ◌^◌};
ghost use Rattle.model.specs.Limits.{size_limit, queue_limit};
ghost use Rattle.model.specs.Steps.{packet_joined, surplus_cleared, first_size, first_left, excess_kept};
ghost use Rattle.steps.specs.Cells.{view_flow, encode_flow};
ghost use Rattle.steps.specs.Premises.{FlowReady, HasFirst, HasRoom};
ghost use Rattle.steps.specs.Places.{first_place, end_place};

use crate::{FlowCell, Place};
use model::{QUEUE_LIMIT, SIZE_LIMIT};

// The waiting packets' sizes, each less one, are the digits of a number in this base.
const BASE: u64 = SIZE_LIMIT as u64;

// How many bits such a digit has.
const DIGIT_BITS: usize = 8;

// What a digit at a place of that number is worth.
#[tactic(auto, using(crate::proofs::Packed::worth_is))]
fn worth(at: usize) -> u64
    requires { at < queue_limit }
    ensures { result ≡ size_limit ^ at }
{
    1 << (DIGIT_BITS * at)
}

impl FlowCell {
    // Step 1: a packet of this size joins the end of the queue.
    pub fn join(&mut self, size: usize)
        requires { HasRoom self.old size }
        ensures { self.new ≡ encode_flow (packet_joined (view_flow self.old) size) }
    {
        let at = self.waiting as usize;
        if at == 0 {
            self.surplus = 0;
        }
        self.sizes += worth(at) * (size - 1) as u64;
        self.waiting += 1;
    }

    // Step 1: where a packet of this size lies once it has joined the queue of this flow, which has number f.
    pub fn end_place(self, f: usize, size: usize) -> Place
        requires { FlowReady self }
        ensures { result ≡ end_place f (view_flow self) size }
    {
        let slot = ((self.slot + self.waiting) % QUEUE_LIMIT) as usize;
        Place {
            flow: f,
            slot,
            size,
        }
    }

    // Step 2: the surplus becomes 0.
    #[tactic(auto, using(crate::proofs::FlowLaws::cleared_law))]
    pub fn clear(&mut self)
        requires { FlowReady self.old }
        ensures { self.new ≡ encode_flow (surplus_cleared (view_flow self.old)) }
    {
        self.surplus = 0;
    }

    // Step 3: the size of the first packet, if there is one; any flow may be asked.
    #[tactic(auto, using(crate::proofs::FlowLaws::first_size_law))]
    pub fn first_size(self) -> u16
        ensures { HasFirst self → result ≡ first_size (view_flow self) }
    {
        (self.sizes % BASE) as u16 + 1
    }

    // Step 3: where the first packet of this flow lies, which has number f; any flow may be asked.
    pub fn first_place(self, f: usize) -> Place
        ensures { FlowReady self → result ≡ first_place f (view_flow self) }
    {
        let size = if self.waiting == 0 {
            0
        } else {
            self.first_size() as usize
        };
        Place {
            flow: f,
            slot: self.slot as usize,
            size,
        }
    }

    // Step 3: the first packet leaves.
    pub fn let_first_leave(&mut self)
        requires { HasFirst self.old }
        ensures { self.new ≡ encode_flow (first_left (view_flow self.old)) }
    {
        self.slot = (self.slot + 1) % QUEUE_LIMIT;
        self.waiting -= 1;
        self.sizes /= BASE;
    }

    // Step 6: with packets waiting the surplus is the excess.
    #[tactic(auto, using(crate::proofs::FlowLaws::excess_law))]
    pub fn keep_excess(&mut self, allowed: u16, sent: u16)
        requires flow_ready { FlowReady self.old }
        requires some_wait { 0 < self.old.waiting }
        requires allowance_sent { allowed ≤ sent }
        ensures { self.new ≡ encode_flow (excess_kept (view_flow self.old) allowed sent) }
    {
        self.surplus = sent - allowed;
    }
}
