// The loop `store` of bench/plain/README.md: one packet into the store and one out of it.
#![tactic(auto)]

ghost use Rattle.std.specs.Prelude.{◌<◌, ◌≤◌};
ghost use Rattle.model.specs.Limits.{size_limit};

use bench_loops::sums::Check;
use bench_loops::{sums, words};
use model::{Reply, SIZE_LIMIT};
use std::array;
use store::{STORE_LENGTH, Site};

const FLOWS: usize = 4;

// The flows open. Of this program alone: one for any scheduler, weights and number of flows would be longer than this loop.
fn opened() -> Site {
    let mut site = Site::new();
    for f in 0..FLOWS {
        site = site.open(f, 1).state;
    }
    site
}

// The departure, and the first and the last byte of its packet.
fn replied(check: &mut Check, reply: Reply, out: &[u8; SIZE_LIMIT]) {
    sums::replied(check, reply);
    if let Reply::Departure(d) = reply {
        // no contract is asked for the size, so that any reply has a byte here; sizes are 1 to 256
        let last = d.size.wrapping_sub(1) % 256;
        check.fold(out[0]);
        check.fold(out[last as usize]);
    }
}

// One packet in, and one out. Each is a function of its own, with no loop in it: so the compiler copies the site less often.
fn offer(site: &mut Site, f: usize, packet: &[u8], store: &mut [u8], check: &mut Check) {
    let offered = site.offer(f, packet, store);
    *site = offered.state;
    sums::answered(check, offered.reply);
}

fn depart(site: &mut Site, store: &[u8], out: &mut [u8; SIZE_LIMIT], check: &mut Check) {
    let left = site.depart(store, out);
    *site = left.state;
    replied(check, left.reply, out);
}

fn pairs(size: usize, n: usize) -> Check
    requires { (0 < size) × (size ≤ size_limit) }
{
    let mut site = opened();
    let mut packet: [u8; SIZE_LIMIT] = array::from_fn(|j| (j % 256 * 7 % 256) as u8);
    let mut store = [0u8; STORE_LENGTH];
    let mut out = [0u8; SIZE_LIMIT];
    let mut check = Check::new(0);
    for i in 0..n {
        packet[0] = (i % 256) as u8;
        packet[size - 1] = ((i + 1) % 256) as u8;
        offer(
            &mut site,
            i % FLOWS,
            &packet[..size],
            &mut store,
            &mut check,
        );
        depart(&mut site, &store, &mut out, &mut check);
    }
    check
}

fn main(rt: HostRuntime) {
    let Some((size, n)) = words::size_and_turns(&rt, SIZE_LIMIT) else {
        let _ = eprintln!(rt;
            "usage: bench_store LEN N   LEN from 1 to 256, N from 1 to 999999999999"
        );
        return;
    };
    let _ = println!(rt; "{}", pairs(size, n).value());
}
