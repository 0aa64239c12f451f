// What the steps do to the round. A step that changes the line has it lent. A turn's flow, allowance and bytes sent are three numbers here, as in
// document 01's Turn. Each step asks for a flow or a round that is ready: a type that kept it would have each step show again what the model proves once of
// whole states.
ghost use Rattle.std.specs.Prelude.{◌≡◌, ℕ, ◌+◌, ◌*◌, ◌-◌, ◌≤◌, ◌<◌, max};
ghost use Rattle.model.specs.Limits.{weight_limit, mark_limit, flow_limit};
ghost use Rattle.model.specs.Model.{Round};
ghost use Rattle.model.specs.Steps.{flow_lined, round_started, allowance as allowance_of, turn_opened, turn_kept, rounded_up, raised as raised_to, turn_closed};
ghost use Rattle.steps.specs.Cells.{view_flow};
ghost use Rattle.steps.specs.Premises.{in_place, view_round, encode_round, FlowReady, RoundReady, StepGives, sent_limit};

use crate::cells::shift;
use crate::{FlowCell, RoundCell};
use model::Serving;

// Step 2: the allowance.
pub fn allowance(weight: u16, mark: u16, surplus: u16) -> u16
    requires { (weight ≤ weight_limit) × (mark ≤ mark_limit) × (surplus ≤ weight * mark) }
    ensures { result ≡ allowance_of weight mark surplus }
{
    weight * (1 + mark) - surplus
}

// Step 5: the excess by the weight, rounded up. A turn's flow has no weight 0; it is asked all the same, since before a division that could trap the
// compiler keeps a second copy of the state.
fn rounded_up(excess: u16, weight: u16) -> u16
    requires { (weight ≤ weight_limit) × (excess < sent_limit) }
    ensures { result ≡ rounded_up excess weight }
{
    if weight == 0 {
        0
    } else {
        excess.div_ceil(weight)
    }
}

// Step 5: the running mark, raised to this excess by weight, rounded up. Mostly it is high enough, and nothing is divided.
fn raised_to(running: u16, weight: u16, excess: u16) -> u16
    requires { (1 ≤ weight) × (weight ≤ weight_limit) × (running ≤ mark_limit) × (excess < sent_limit) }
    ensures { result ≡ max running (rounded_up excess weight) }
{
    if running * weight < excess {
        rounded_up(excess, weight)
    } else {
        running
    }
}

// Step 5: the running mark, raised where the excess is 0 or more.
fn raised(running: u16, weight: u16, allowed: u16, sent: u16) -> u16
    requires { (1 ≤ weight) × (weight ≤ weight_limit) × (running ≤ mark_limit) × (sent < sent_limit) }
    ensures { result ≡ raised_to running weight allowed sent }
{
    if allowed <= sent {
        raised_to(running, weight, sent - allowed)
    } else {
        running
    }
}

impl RoundCell {
    // Step 1: a flow that was not active goes to the end of the line.
    pub fn line_up(&mut self, line: &mut [u8], f: u8, was: FlowCell)
        requires round_ready { RoundReady (in_place line.old self.old) }
        requires flow_ready { FlowReady was }
        requires line_has_room { was.waiting ≡ 0 → self.old.length < flow_limit }
        ensures { in_place line.new self.new ≡ encode_round (flow_lined (view_round (in_place line.old self.old)) f (view_flow was)) }
    {
        if was.waiting == 0 {
            line[self.length as usize] = f;
            self.length += 1;
        }
    }

    // Step 2: a round starts where no visit is left.
    #[tactic(auto, using(crate::proofs::RoundLaws::started_law, crate::proofs::RoundLaws::going_on_law))]
    pub fn start(&mut self)
        ensures { StepGives self.old round_started self.new }
    {
        if self.visits == 0 {
            self.visits = self.length;
            self.mark = self.running;
            self.running = 0;
        }
    }

    // Step 2: the head leaves the line and opens a turn.
    pub fn open_turn(&mut self, line: &mut [u8], f: u8, allowed: u16)
        requires round_ready { RoundReady (in_place line.old self.old) }
        requires some_in_line { 0 < self.old.length }
        ensures { in_place line.new self.new ≡ encode_round (turn_opened (view_round (in_place line.old self.old)) f allowed) }
    {
        shift(line);
        self.length -= 1;
        self.turn = Serving::Turn(f, allowed, 0);
    }

    // Step 4: the turn stays open.
    #[tactic(auto, using(crate::proofs::RoundLaws::kept_law))]
    pub fn keep_turn(&mut self, f: u8, allowed: u16, sent: u16)
        ensures { StepGives self.old (λ (q : Round). turn_kept q f allowed sent) self.new }
    {
        self.turn = Serving::Turn(f, allowed, sent);
    }

    // Steps 5 and 6: the turn ends with nothing waiting, and the flow stays out of the line.
    pub fn end_emptied_turn(&mut self, left: FlowCell, allowed: u16, sent: u16)
        requires flow_ready { FlowReady left }
        requires none_wait { left.waiting ≡ 0 }
        requires weighs { 1 ≤ left.weight }
        requires a_visit_left { 1 ≤ self.old.visits }
        requires running_in_range { self.old.running ≤ mark_limit }
        requires sent_in_range { sent < sent_limit }
        ensures { (f : ℕ) → StepGives self.old (λ (q : Round). turn_closed q (view_flow left) f allowed sent) self.new }
    {
        self.running = raised(self.running, left.weight, allowed, sent);
        self.visits -= 1;
        self.turn = Serving::NoTurn;
    }

    // Steps 5 and 6: the turn ends with packets waiting, and the flow goes to the end of the line.
    pub fn close_turn(&mut self, line: &mut [u8], left: FlowCell, f: u8, allowed: u16, sent: u16)
        requires round_ready { RoundReady (in_place line.old self.old) }
        requires flow_ready { FlowReady left }
        requires some_wait { 0 < left.waiting }
        requires weighs { 1 ≤ left.weight }
        requires line_has_room { self.old.length < flow_limit }
        requires a_visit_left { 1 ≤ self.old.visits }
        requires allowance_sent { allowed ≤ sent }
        requires sent_in_range { sent < sent_limit }
        ensures { in_place line.new self.new ≡ encode_round (turn_closed (view_round (in_place line.old self.old)) (view_flow left) f allowed sent) }
    {
        line[self.length as usize] = f;
        self.length += 1;
        self.running = raised_to(self.running, left.weight, sent - allowed);
        self.visits -= 1;
        self.turn = Serving::NoTurn;
    }
}
