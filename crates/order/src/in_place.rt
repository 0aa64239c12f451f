// The calls on packet sizes, in place: the bytes of a state and its round are lent. What a call does is said here, once; a method with self lends the parts
// of its own state, and a caller in another language lends those of an image: so cells and round come apart, and that they are sound together is a clause.
// Each call reads and lends parts of those bytes, so each counts on their length.
#![tactic(auto, using(crate::proofs::LentLaws::bytes_lent))]

ghost use Rattle.order.specs.Encoding.{state_with, Sound};
ghost use Rattle.order.specs.Promised.{OpenGives, OfferGives, DepartGives, BurstGives, left_by};

use crate::Departed;
use layout::LINE_START;
use model::{Refusal, Reply};
use steps::{Place, RoundCell, ask};

pub fn open(cells: &mut [u8], r: RoundCell, f: usize, weight: usize) -> Result<(), Refusal>
    requires { Sound (state_with cells.old r) }
    ensures { OpenGives (state_with cells.old r) f weight (left_by cells.new r result) }
{
    let at = ask::index(f);
    let mut flow = layout::flow_at(cells, at);
    ask::open(&mut flow, f, weight)?;
    layout::put_opened(cells, at, flow);
    Ok(())
}

// Tells where the packet lies that is accepted.
pub fn offer(cells: &mut [u8], r: &mut RoundCell, f: usize, size: usize) -> Result<Place, Refusal>
    requires { Sound (state_with cells.old r.old) }
    ensures { OfferGives (state_with cells.old r.old) f size (left_by cells.new r.new result) }
{
    let at = ask::index(f);
    let mut flow = layout::flow_at(cells, at);
    let place = ask::offer(&mut cells[LINE_START..], r, &mut flow, f, size)?;
    layout::put_flow(cells, at, flow);
    Ok(place)
}

// A burst has it inlined too, so that the round stays in registers from departure to departure.
#[inline(always)]
pub fn depart(cells: &mut [u8], r: &mut RoundCell) -> Departed
    requires { Sound (state_with cells.old r.old) }
    ensures { DepartGives (state_with cells.old r.old) (left_by cells.new r.new result) }
{
    let at = turns::whose(cells[LINE_START], *r);
    let mut flow = layout::flow_at(cells, at);
    let from = flow.first_place(at);
    let reply = turns::visit(&mut cells[LINE_START..], r, &mut flow);
    layout::put_flow(cells, at, flow);
    Departed { reply, from }
}

// Up to n departures, whose flow numbers go into the list from its start; tells how many there were, document 01's bounded count.
pub fn burst(
    cells: &mut [u8],
    r: &mut RoundCell,
    n: usize,
    list: &mut [u8],
) -> Result<usize, Refusal>
    requires { Sound (state_with cells.old r.old) }
    ensures { BurstGives (state_with cells.old r.old) n list.old list.new (left_by cells.new r.new result) }
{
    if list.len() < n {
        return Err(Refusal::ListShort);
    }
    for made in 0..n {
        let Reply::Departure(sent) = depart(cells, r).reply else {
            return Ok(made);
        };
        list[made] = sent.flow;
    }
    Ok(n)
}
