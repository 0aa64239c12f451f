// What random calls of either layer share, as reference/CALLS.md defines it: what is drawn before a call, and what is folded, counted and printed
// after it.
#![tactic(auto)]

use draws::{Call, Draws};
use tally::Tally;

pub mod buffers;
pub mod draws;
pub mod tally;

const CALLS_TO_A_LINE: u64 = 1000;

// A scheduler of one layer, whose calls are lent the caller's buffers.
pub trait BorrowingLayer {
    // Makes a call, which is lent the first bytes of these buffers, and takes in what it replies. Each layer matches the kinds itself: its calls are lent other
    // buffers.
    fn make(&mut self, call: &Call, kept: &mut [u8], out: &mut [u8], tally: &mut Tally);
}

// Makes the calls on a layer, lending them two buffers. After every 1,000 and after the last the buffer that is kept is folded and a line printed, and then how
// often each reply was given. A write that fails is passed over.
pub fn run_borrowing<R: Print, L: BorrowingLayer>(
    rt: &R,
    part: &[u8],
    seed: u32,
    calls: u64,
    layer: &mut L,
    kept: &mut [u8],
    out: &mut [u8],
) {
    let mut draws = Draws::new(seed);
    let mut tally = Tally::new();
    for before in 0..calls {
        let n = before + 1;
        layer.make(&draws.call(before), kept, out, &mut tally);
        if ends_a_line(n, calls) {
            tally.fold_all(kept);
            let _ = rt.write_all(part);
            let _ = println!(rt; " calls={n} check={}", tally.check());
        }
    }
    let _ = rt.write_all(part);
    let _ = print!(rt; " replies");
    print_counts(rt, &tally);
}

// A scheduler of one layer, with the buffers that its calls are lent.
pub trait Layer {
    // Makes a call, and takes in what it replies.
    fn make(&mut self, call: &Call, tally: &mut Tally);

    // The buffer that is folded before each line.
    fn kept(&self) -> &[u8];
}

// Makes the calls on a layer with its own buffers, and prints what `run_borrowing` does: the part's name, which is a text here, together with what follows it.
pub fn run<R: Print, L: Layer>(rt: &R, part: &str, seed: u32, calls: u32, layer: &mut L) {
    let mut draws = Draws::new(seed);
    let mut tally = Tally::new();
    for before in 0..calls {
        let made = before + 1;
        layer.make(&draws.call(before.into()), &mut tally);
        if ends_a_line(made.into(), calls.into()) {
            tally.fold_all(layer.kept());
            let _ = println!(rt; "{part} calls={made} check={}", tally.check());
        }
    }
    let _ = print!(rt; "{part} replies");
    print_counts(rt, &tally);
}

// Whether a line is printed when so many of the calls are made.
fn ends_a_line(made: u64, calls: u64) -> bool {
    made == calls || made % CALLS_TO_A_LINE == 0
}

fn print_counts<R: Print>(rt: &R, tally: &Tally) {
    for count in tally.counts() {
        let _ = print!(rt; " {count}");
    }
    let _ = println!(rt);
}
