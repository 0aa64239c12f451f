// The loop `pairs` of bench/plain/README.md: one offer and one departure at a time.
#![tactic(auto)]

ghost use Rattle.std.specs.Prelude.{◌<◌};

use bench_loops::sums::Check;
use bench_loops::{sums, words};
use model::FLOW_LIMIT;
use order::State;

// The flows open, with two packets waiting in each.
fn begun(flows: usize) -> State {
    let mut state = bench_loops::opened(flows);
    for f in 0..flows {
        for _ in 0..2 {
            state = state.offer(f, bench_loops::size(f)).state;
        }
    }
    state
}

// One offer and one departure. A function of its own, with no loop in it, and what was said is folded after both: so the compiler copies the state less
// often.
fn pair(state: &mut State, f: usize, size: usize, check: &mut Check) {
    let offered = state.offer(f, size);
    *state = offered.state;
    let reply = bench_loops::depart(state);
    sums::answered(check, offered.reply);
    sums::replied(check, reply);
}

fn pairs(flows: usize, n: usize) -> Check
    requires { 0 < flows }
{
    let mut state = begun(flows);
    let mut check = Check::new(0);
    for i in 0..n {
        pair(&mut state, i % flows, bench_loops::size(i), &mut check);
    }
    check
}

fn main(rt: HostRuntime) {
    let Some((flows, n)) = words::size_and_turns(&rt, FLOW_LIMIT) else {
        let _ = eprintln!(rt;
            "usage: bench_pairs FLOWS N   FLOWS from 1 to 32, N from 1 to 999999999999"
        );
        return;
    };
    let _ = println!(rt; "{}", pairs(flows, n).value());
}
