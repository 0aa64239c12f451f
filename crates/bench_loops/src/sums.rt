// The checksum of what the calls reply, in the numbers of bench/plain/README.md; those of the test rooms differ.
use checksums::Checksum;
use model::{Refusal, Reply, Sent};

pub type Check = Checksum<31, 1000003>;

// What a departure call that finds nothing folds.
const IDLE: u16 = 7777;

fn refused(check: &mut Check, refusal: Refusal) {
    check.fold(u8::from(refusal));
}

// An answer of open or offer: the refusal's number, or 0.
pub fn answered<T: Drop>(check: &mut Check, answer: Result<T, Refusal>) {
    match answer {
        Ok(_) => check.fold(0u8),
        Err(refusal) => refused(check, refusal),
    }
}

fn sent(check: &mut Check, d: Sent) {
    check.fold(d.flow);
    check.fold(d.size);
    check.fold(d.mark);
    check.fold(d.allowance);
}

pub fn replied(check: &mut Check, reply: Reply) {
    match reply {
        Reply::Departure(d) => sent(check, d),
        Reply::Idle => check.fold(IDLE),
        Reply::Refused(refusal) => refused(check, refusal),
    }
}

// How many departures a burst made.
pub fn counted(check: &mut Check, count: Result<usize, Refusal>) {
    match count {
        Ok(n) => check.fold((n % 65536) as u16),
        Err(refusal) => refused(check, refusal),
    }
}
