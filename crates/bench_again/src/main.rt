// The loop `again` of bench/plain/README.md: bursts of 100 from one full state.
#![tactic(auto)]

use bench_loops::sums::Check;
use bench_loops::{SENT, Sizes, sums, words};

fn again(n: usize) -> Check {
    let full = bench_loops::filled_with(Sizes::Mixed);
    let mut list = [0u8; SENT];
    let mut check = Check::new(0);
    for _ in 0..n {
        let sent = full.burst(SENT, &mut list);
        sums::counted(&mut check, sent.reply);
        check.fold(list[SENT - 1]);
    }
    check
}

fn main(rt: HostRuntime) {
    let Some(n) = words::turns(&rt) else {
        let _ = eprintln!(rt; "usage: bench_again N   N from 1 to 999999999999");
        return;
    };
    let _ = println!(rt; "{}", again(n).value());
}
