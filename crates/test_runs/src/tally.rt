// The checksum of what calls reply, and how often each reply was given.
use checksums::Checksum;
use model::{Refusal, Reply, Sent};

// The numbers of replies: a refusal has document 01's, 1 to 9.
#[derive(Clone, Copy, PartialEq, Eq, Debug)]
pub enum Said {
    Reset = 10,
    Opened = 11,
    Accepted = 12,
    Departed = 13,
    Idle = 14,
    Burst = 15,
}

// A count for each reply's number.
pub const COUNTS: usize = Said::Burst as usize + 1;

#[derive(Clone, Copy)]
pub struct Tally {
    sum: Checksum<16777619, 4294967296>,
    counts: [u64; COUNTS],
}

impl Tally {
    pub fn new() -> Tally {
        Tally {
            sum: Checksum::new(2166136261),
            counts: [0; COUNTS],
        }
    }

    pub fn check(&self) -> u64 {
        self.sum.value()
    }

    // The counts of replies 1 to 15.
    pub fn counts(&self) -> &[u64] {
        &self.counts[1..]
    }

    pub fn fold_all(&mut self, bytes: &[u8]) {
        self.sum.fold_all(bytes);
    }

    // A reply's number is folded first.
    pub fn take_in(&mut self, number: u8) {
        self.sum.fold(number);
        if let Some(count) = self.counts.get_mut(number as usize) {
            *count = count.wrapping_add(1);
        }
    }

    pub fn said(&mut self, said: Said) {
        self.take_in(said as u8);
    }

    // An answer, with what is said where the call was not refused.
    pub fn answered<T: Drop>(&mut self, answer: Result<T, Refusal>, done: Said) {
        match answer {
            Ok(_) => self.said(done),
            Err(refusal) => self.take_in(refusal.into()),
        }
    }

    pub fn departed(&mut self, reply: Reply) {
        self.take_in(number_of(reply));
        if let Reply::Departure(d) = reply {
            self.sent(d);
        }
    }

    fn sent(&mut self, d: Sent) {
        self.sum.fold(d.flow);
        self.sum.fold_all(&d.size.to_le_bytes());
        self.sum.fold(d.mark);
        self.sum.fold_all(&d.allowance.to_le_bytes());
    }

    pub fn burst(&mut self, count: Result<usize, Refusal>) {
        self.answered(count, Said::Burst);
        if let Ok(n) = count {
            let [low, high, ..] = n.to_le_bytes();
            self.sum.fold(low);
            self.sum.fold(high);
        }
    }
}

// The number of a departure's reply.
pub fn number_of(reply: Reply) -> u8 {
    match reply {
        Reply::Departure(_) => Said::Departed as u8,
        Reply::Idle => Said::Idle as u8,
        Reply::Refused(refusal) => refusal.into(),
    }
}
