// What the bench's loops share: the checksum, the sizes offered, the opened flows, the full state, and the program's arguments. bench/plain/README.md defines the loops.
// Each program has a main and loops of its own: a loop that is handed a closure, or shared, is inlined otherwise than the one that is to be counted.
#![tactic(auto)]

ghost use Rattle.order.specs.Promised.{DepartGives};
ghost use Rattle.steps.specs.declared.Place.{Place};

use model::{FLOW_LIMIT, QUEUE_LIMIT, Reply, SIZE_LIMIT};
use order::State;

pub mod sums;
pub mod words;

// How many packets a full state has.
pub const FULL: usize = FLOW_LIMIT * QUEUE_LIMIT as usize;

// How many departures are made from it.
pub const SENT: usize = 100;

// The size of the k-th packet: (k × 37) mod 256, and one more.
pub fn size(k: usize) -> usize {
    1 + k % 256 * 37 % 256
}

// A new state with the first flows open, by weights of 1 to 4.
pub fn opened(flows: usize) -> State {
    let mut state = State::new();
    for f in 0..flows {
        state = state.open(f, 1 + f % 4).state;
    }
    state
}

// One departure. A function of its own, with no loop in it: so the compiler makes it on the state that it is lent.
pub fn depart(state: &mut State) -> Reply
    ensures { (from : Place) × DepartGives state.old (record { state = state.new; reply = record { reply = result; from = from } }) }
{
    let left = state.depart();
    *state = left.state;
    left.reply.reply
}

// Every flow open, with eight packets waiting in each, of the sizes that a function gives, packet by packet.
pub fn filled<F: Fn(usize) -> usize>(size: F) -> State
    requires { F.IsAlwaysCallable size }
{
    let mut state = opened(FLOW_LIMIT);
    for k in 0..FULL {
        state = state.offer(k / QUEUE_LIMIT as usize, size(k)).state;
    }
    state
}

// The sizes of the packets in a full state.
#[derive(Clone, Copy)]
pub enum Sizes {
    Mixed,
    Largest,
}

// The same, and nothing is asked, since the sizes are one of two kinds.
pub fn filled_with(sizes: Sizes) -> State {
    let mut state = opened(FLOW_LIMIT);
    for k in 0..FULL {
        let size = match sizes {
            Sizes::Mixed => size(k),
            Sizes::Largest => SIZE_LIMIT,
        };
        state = state.offer(k / QUEUE_LIMIT as usize, size).state;
    }
    state
}

#[cfg(test)]
mod tests {
    use super::*;
    use std::test::Fail;

    // The first departures where each flow's packets have 1, 2, 3 bytes and so on, by document 01's steps: with the mark 0 a flow is allowed its weight.
    const FIRST: [(u8, u16); 11] = [
        (0, 1),
        (1, 1),
        (1, 2),
        (2, 1),
        (2, 2),
        (3, 1),
        (3, 2),
        (3, 3),
        (4, 1),
        (5, 1),
        (5, 2),
    ];

    #[test]
    fn filled_by_a_function() -> Result<(), Fail> {
        let mut state = filled(|k| 1 + k % QUEUE_LIMIT as usize);
        for (flow, size) in FIRST {
            let expected = match depart(&mut state) {
                Reply::Departure(sent) => sent.flow == flow && sent.size == size,
                Reply::Idle | Reply::Refused(_) => false,
            };
            expected.then_some(()).ok_or("another departs")?;
        }
        Ok(())
    }
}
