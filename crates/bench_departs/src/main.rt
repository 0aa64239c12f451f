// The loop `departs` of bench/plain/README.md: 100 departures from one full state, one call each.
#![tactic(auto)]

use bench_loops::sums::Check;
use bench_loops::{SENT, Sizes, sums, words};

fn departs(n: usize) -> Check {
    let full = bench_loops::filled_with(Sizes::Largest);
    let mut check = Check::new(0);
    for _ in 0..n {
        let mut state = full;
        for _ in 0..SENT {
            let reply = bench_loops::depart(&mut state);
            sums::replied(&mut check, reply);
        }
    }
    check
}

fn main(rt: HostRuntime) {
    let Some(n) = words::turns(&rt) else {
        let _ = eprintln!(rt; "usage: bench_departs N   N from 1 to 999999999999");
        return;
    };
    let _ = println!(rt; "{}", departs(n).value());
}
