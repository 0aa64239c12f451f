// The loop `store_departs` of bench/plain/README.md: 100 store departures from one full site, one call each.
#![tactic(auto)]

use bench_loops::sums::Check;
use bench_loops::{FULL, SENT, sums, words};
use model::{FLOW_LIMIT, QUEUE_LIMIT, Reply, SIZE_LIMIT};
use store::{STORE_LENGTH, Site};

// Every flow open, by weights of 1 to 4. Of this program alone: one for states and sites would be longer than this loop.
fn opened() -> Site {
    let mut site = Site::new();
    for f in 0..FLOW_LIMIT {
        site = site.open(f, 1 + f % 4).state;
    }
    site
}

// Eight packets of 256 bytes in each flow, and so the whole store: the bytes of packet k are all k.
fn filled(store: &mut [u8]) -> Site {
    let mut site = opened();
    for k in 0..FULL {
        let packet = [(k % 256) as u8; SIZE_LIMIT];
        site = site.offer(k / QUEUE_LIMIT as usize, &packet, store).state;
    }
    site
}

// One departure. A function of its own, with no loop in it, as in bench_loops.
fn depart(site: &mut Site, store: &[u8], out: &mut [u8]) -> Reply {
    let left = site.depart(store, out);
    *site = left.state;
    left.reply
}

fn departs(n: usize) -> Check {
    let mut store = [0u8; STORE_LENGTH];
    let full = filled(&mut store);
    let mut out = [0u8; SIZE_LIMIT];
    let mut check = Check::new(0);
    for _ in 0..n {
        let mut site = full;
        for _ in 0..SENT {
            let reply = depart(&mut site, &store, &mut out);
            sums::replied(&mut check, reply);
        }
        check.fold(out[0]);
        check.fold(out[SIZE_LIMIT - 1]);
    }
    check
}

fn main(rt: HostRuntime) {
    let Some(n) = words::turns(&rt) else {
        let _ = eprintln!(rt; "usage: bench_store_departs N   N from 1 to 999999999999");
        return;
    };
    let _ = println!(rt; "{}", departs(n).value());
}
