// Open and offer, on the round and the flow that they concern: the checks in document 01's order, and what follows where none refuses.
ghost use Rattle.std.specs.Prelude.{◌≡◌, cond, ◌<◌, ltb};
ghost use Rattle.model.specs.Limits.{flow_limit};
ghost use Rattle.model.specs.Calls.{open_answer, offer_answer};
ghost use Rattle.steps.specs.Cells.{view_flow};
ghost use Rattle.steps.specs.Premises.{in_place, FlowReady, RoundReady, open_in_place, opened_parts, offer_in_place, offered_parts};

use crate::{FlowCell, Place, RoundCell};
use model::{FLOW_LIMIT, QUEUE_LIMIT, Refusal, SIZE_LIMIT, WEIGHT_LIMIT};

// Where a flow lies among the flows; a number that no flow has is refused, and meanwhile stands for flow 0.
pub fn index(f: usize) -> usize
    ensures { result ≡ cond (ltb f flow_limit) f 0 }
{
    if f < FLOW_LIMIT { f } else { 0 }
}

fn open_answer(f: usize, weight: usize, x: FlowCell) -> Result<(), Refusal>
    ensures { result ≡ open_answer f weight (view_flow x) }
{
    if FLOW_LIMIT <= f {
        return Err(Refusal::NoSuchFlow);
    }
    if weight == 0 || WEIGHT_LIMIT < weight {
        return Err(Refusal::BadWeight);
    }
    if x.weight != 0 {
        return Err(Refusal::OpenAlready);
    }
    Ok(())
}

fn offer_answer(f: usize, size: usize, x: FlowCell) -> Result<(), Refusal>
    requires { FlowReady x }
    ensures { result ≡ offer_answer f size (view_flow x) }
{
    if FLOW_LIMIT <= f {
        return Err(Refusal::NoSuchFlow);
    }
    if x.weight == 0 {
        return Err(Refusal::NotOpen);
    }
    if size == 0 || SIZE_LIMIT < size {
        return Err(Refusal::BadSize);
    }
    if QUEUE_LIMIT <= x.waiting {
        return Err(Refusal::QueueFull);
    }
    Ok(())
}

pub fn open(x: &mut FlowCell, f: usize, weight: usize) -> Result<(), Refusal>
    requires { FlowReady x.old }
    ensures { open_in_place x.new result ≡ opened_parts x.old f weight }
{
    open_answer(f, weight, *x)?;
    *x = FlowCell {
        weight: weight as u16,
        surplus: 0,
        slot: 0,
        waiting: 0,
        sizes: 0,
    };
    Ok(())
}

// Tells where the packet lies that is accepted.
pub fn offer(
    line: &mut [u8],
    r: &mut RoundCell,
    x: &mut FlowCell,
    f: usize,
    size: usize,
) -> Result<Place, Refusal>
    requires round_ready { RoundReady (in_place line.old r.old) }
    requires flow_ready { FlowReady x.old }
    requires line_has_room { f < flow_limit → x.old.waiting ≡ 0 → r.old.length < flow_limit }
    ensures { offer_in_place line.new r.new x.new result ≡ offered_parts (in_place line.old r.old) x.old f size }
{
    offer_answer(f, size, *x)?;
    let place = x.end_place(f, size);
    r.line_up(line, f as u8, *x);
    x.join(size);
    Ok(place)
}
