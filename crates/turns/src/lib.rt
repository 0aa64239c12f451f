// A departure: document 01's steps 2 to 6 one after the other, on the round and the flow whose turn it is. No user calls these functions: the state's
// calls stand above, and what they may count on is shown there. Line, round and flow are lent side by side: they lie apart in a state, and a struct of the three
// would be made anew for each call.
#![tactic(auto)]

ghost use Rattle.std.specs.Prelude.{◌≡◌, List, get_or, ℕ};
ghost use Rattle.model.specs.Steps.{served as served_of, visit as visit_of, whose as whose_of};
ghost use Rattle.model.specs.declared.Serving.TheVariants.{NoTurn};
ghost use Rattle.steps.specs.Cells.{view_flow};
ghost use Rattle.steps.specs.Premises.{in_place, view_round, encode_round, RoundReady};
ghost use Rattle.turns.specs.Visits.{MayServe, MayBegin, MayVisit, begun_by, begun_turn, visit_in_place, encode_visit};

use model::{Reply, Sent, Serving};
use steps::{FlowCell, RoundCell, round};

// Steps 3 to 6, in an open turn of flow f.
fn serve(
    line: &mut [u8],
    r: &mut RoundCell,
    x: &mut FlowCell,
    f: u8,
    allowed: u16,
    sent: u16,
) -> Reply
    requires { MayServe (in_place line.old r.old) x.old allowed sent }
    ensures { visit_in_place line.new r.new x.new result ≡ encode_visit (served_of (view_round (in_place line.old r.old)) (view_flow x.old) f allowed sent) }
{
    let size = x.first_size();
    let total = sent + size;
    let mark = r.mark;
    x.let_first_leave();
    if x.waiting == 0 {
        r.end_emptied_turn(*x, allowed, total);
        x.clear();
    } else if allowed <= total {
        r.close_turn(line, *x, f, allowed, total);
        x.keep_excess(allowed, total);
    } else {
        r.keep_turn(f, allowed, total);
    }
    Reply::Departure(Sent {
        flow: f,
        size,
        mark,
        allowance: allowed,
    })
}

// Step 2, with no open turn: a round starts where no visit is left, and the flow at the head of the line opens a turn.
fn begin_head(line: &mut [u8], r: &mut RoundCell, x: FlowCell)
    requires { MayBegin (in_place line.old r.old) x }
    ensures { in_place line.new r.new ≡ encode_round (begun_by NoTurn (view_round (in_place line.old r.old)).line (view_round (in_place line.old r.old)) (view_flow x)) }
{
    let f = line[0];
    r.start();
    let allowed = round::allowance(x.weight, r.mark, x.surplus);
    r.open_turn(line, f, allowed);
}

// Step 2: a turn is open, or one is opened; none where nobody stands in line.
fn begin(line: &mut [u8], r: &mut RoundCell, x: FlowCell)
    requires { MayVisit (in_place line.old r.old) x }
    ensures { in_place line.new r.new ≡ encode_round (begun_turn (view_round (in_place line.old r.old)) (view_flow x)) }
{
    match r.turn {
        Serving::Turn(_, _, _) => {}
        Serving::NoTurn => {
            if r.length != 0 {
                begin_head(line, r, x);
            }
        }
    }
}

// Steps 2 to 6. A flow whose turn is open has surplus 0 already, so it can be cleared whether its turn is opened here or was open. `in_place::depart`
// has it inlined, which the compiler would not do unasked.
#[inline]
pub fn visit(line: &mut [u8], r: &mut RoundCell, x: &mut FlowCell) -> Reply
    requires { MayVisit (in_place line.old r.old) x.old }
    ensures { visit_in_place line.new r.new x.new result ≡ encode_visit (visit_of (view_round (in_place line.old r.old)) (view_flow x.old)) }
{
    begin(line, r, *x);
    match r.turn {
        Serving::Turn(f, allowed, sent) => {
            x.clear();
            serve(line, r, x, f, allowed, sent)
        }
        Serving::NoTurn => Reply::Idle,
    }
}

// The flow that a departure concerns, where `head` is the line's first cell.
pub fn whose(head: u8, r: RoundCell) -> usize
    ensures { (line : List ℕ) → RoundReady (in_place line r) → head ≡ get_or line 0 0 → result ≡ whose_of (view_round (in_place line r)) }
{
    match r.turn {
        Serving::Turn(f, _, _) => f as usize,
        Serving::NoTurn => head as usize,
    }
}
