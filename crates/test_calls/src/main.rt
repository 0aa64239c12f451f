// Random calls of both layers, as reference/CALLS.md defines them, from a seed and a number of calls; then the bench row on the store's length. What
// it prints is held to what the independent program prints.
#![tactic(auto)]

use std::env::Env;
use store::{STORE_LENGTH, Site};
use test_order::{BorrowingSizes, LIST_ROOM};
use test_runs::buffers::{rising, staggered};
use test_runs::tally::number_of;
use test_store::{BorrowingBytes, OUT_ROOM, STORE_ROOM};

// How many digits the largest seed has.
const DIGITS: usize = 10;

fn main(rt: HostRuntime) {
    if arguments::count(&rt) == 3
        && let Some(seed) = argument(&rt, 1)
        && let Some(calls) = argument(&rt, 2)
    {
        sizes_run(&rt, seed, calls.into());
        bytes_run(&rt, seed, calls.into());
        short_row(&rt);
    } else {
        let _ = eprintln!(rt; "usage: test_calls SEED CALLS, two numbers from 0 to 4294967295");
    }
}

fn sizes_run<R: Print>(rt: &R, seed: u32, calls: u64) {
    let mut list = [0; LIST_ROOM];
    rising(&mut list, 0, 5);
    test_runs::run_borrowing(
        rt,
        b"order",
        seed,
        calls,
        &mut BorrowingSizes::new(),
        &mut list,
        &mut [],
    );
}

fn bytes_run<R: Print>(rt: &R, seed: u32, calls: u64) {
    let mut store = [0; STORE_ROOM];
    staggered(&mut store);
    let mut out = [0; OUT_ROOM];
    rising(&mut out, 0, 3);
    test_runs::run_borrowing(
        rt,
        b"store",
        seed,
        calls,
        &mut BorrowingBytes::new(),
        &mut store,
        &mut out,
    );
}

fn argument<R: Env>(rt: &R, i: usize) -> Option<u32> {
    u32::try_from(arguments::number(rt, i, &mut [0; DIGITS])?).ok()
}

// A store one byte short and an outgoing buffer one byte short: the store is looked at first.
fn short_row<R: Print>(rt: &R) {
    let left = Site::new().depart(&[0; STORE_LENGTH - 1], &mut [0; 255]);
    let _ = println!(rt; "row={}", number_of(left.reply));
}

#[cfg(test)]
mod tests {
    use std::cell::RefCell;
    use std::fmt::{Display, Write};
    use std::io;
    use std::test::Fail;
    use test_order::Sizes;
    use test_store::Bytes;

    // What is printed is kept.
    #[derive(Drop)]
    struct Kept {
        text: RefCell<String>,
    }

    impl Print for Kept {
        fn print<D: Display + Drop>(&self, value: D) -> io::Result<()> {
            if let Ok(mut text) = self.text.try_borrow_mut() {
                let _ = write!(*text, "{value}");
            }
            Ok(())
        }

        fn println<D: Display + Drop>(&self, value: D) -> io::Result<()> {
            if let Ok(mut text) = self.text.try_borrow_mut() {
                let _ = writeln!(*text, "{value}");
            }
            Ok(())
        }

        // A run over a layer with its own buffers prints text alone.
        fn write_all(&self, _: &[u8]) -> io::Result<()> {
            Ok(())
        }
    }

    // The lines of the independent program's `calls 7 2500`, but for the last.
    const EXPECTED: &str = "order calls=1000 check=312919748
order calls=2000 check=435523576
order calls=2500 check=1744484708
order replies 80 20 79 587 82 93 0 0 11 0 21 678 350 305 194
store calls=1000 check=1900106176
store calls=2000 check=555448907
store calls=2500 check=3563061925
store replies 72 20 79 545 39 191 43 189 0 0 21 551 534 216 0
";

    // A run over a layer with its own buffers prints what one over a layer that is lent them does.
    #[test]
    fn layers_with_own_buffers(rt: HostRuntime) -> Result<(), Fail> {
        let kept = Kept {
            text: RefCell::new(String::new(rt.alloc())),
        };
        test_runs::run(&kept, "order", 7, 2500, &mut Sizes::new());
        test_runs::run(&kept, "store", 7, 2500, &mut Bytes::new());
        let text = kept.text.try_borrow()?;
        (text.as_str() == EXPECTED)
            .then_some(())
            .ok_or("the lines differ")?;
        Ok(())
    }
}
