// The calls on packet sizes: document 01's order layer. Each takes the scheduler's state and hands it back beside its reply.
#![tactic(auto)]

ghost use Rattle.order.specs.State.{State as Parts};
ghost use Rattle.order.specs.Encoding.{Sound, state_with};
ghost use Rattle.order.specs.Promised.{NewGives, OpenGives, OfferGives, DepartGives, BurstGives};

use layout::CELLS;
use model::{Outcome, Refusal, Reply, Serving};
use std::marker::Model;
use steps::{Place, RoundCell};

pub mod in_place;

// The scheduler's state, which only the calls make: the bytes of its flows and its line, and its round.
#[derive(Clone, Copy)]
pub struct State {
    cells: [u8; CELLS],
    round: RoundCell,
}

// Contracts see what it holds. Every state is one that calls gave.
impl Model for State {
    ghost Value = { Parts };

    ghost view = { λ s. state_with s.cells s.round };

    ghost invariant = { λ s. Sound (state_with s.cells s.round) };

    ghost inverse = { λ s. record { cells = s.cells; round = s.round } };
}

// What a departure call tells: its reply and, for the layer that has the packets' bytes, where the packet lay; of size 0 where none departs.
#[derive(Clone, Copy)]
pub struct Departed {
    pub reply: Reply,
    pub from: Place,
}

impl State {
    pub fn new() -> State
        ensures { NewGives result }
    {
        State {
            cells: [0; CELLS],
            round: RoundCell {
                length: 0,
                visits: 0,
                mark: 0,
                running: 0,
                turn: Serving::NoTurn,
            },
        }
    }

    pub fn reset(self) -> State
        ensures { NewGives result }
    {
        State::new()
    }

    pub fn open(mut self, f: usize, weight: usize) -> Outcome<State, Result<(), Refusal>>
        ensures { OpenGives self f weight result }
    {
        let round = self.round;
        let reply = in_place::open(&mut self.cells, round, f, weight);
        Outcome { state: self, reply }
    }

    // Tells, for the layer that has the packets' bytes, where the packet lies that is accepted.
    pub fn offer(mut self, f: usize, size: usize) -> Outcome<State, Result<Place, Refusal>>
        ensures { OfferGives self f size result }
    {
        let reply = self.take_offer(f, size);
        Outcome { state: self, reply }
    }

    pub fn depart(mut self) -> Outcome<State, Departed>
        ensures { DepartGives self result }
    {
        let reply = self.make_departure();
        Outcome { state: self, reply }
    }

    // Offer and departure of a state that is lent, for the layer above: it hands its own struct back, and no state is copied between the two.
    pub fn take_offer(&mut self, f: usize, size: usize) -> Result<Place, Refusal>
        ensures { OfferGives self.old f size (record { state = self.new; reply = result }) }
    {
        in_place::offer(&mut self.cells, &mut self.round, f, size)
    }

    pub fn make_departure(&mut self) -> Departed
        ensures { DepartGives self.old (record { state = self.new; reply = result }) }
    {
        in_place::depart(&mut self.cells, &mut self.round)
    }

    // Up to n departures, whose flow numbers go into the list from its start; tells how many there were.
    pub fn burst(mut self, n: usize, list: &mut [u8]) -> Outcome<State, Result<usize, Refusal>>
        ensures { BurstGives self n list.old list.new result }
    {
        let reply = in_place::burst(&mut self.cells, &mut self.round, n, list);
        Outcome { state: self, reply }
    }
}
