// What departures amount to: for each flow, and for all flows together, how many packets and bytes were sent, and the largest packet.
#![tactic(auto)]

ghost use Rattle.std.specs.Prelude.{◌+◌, ◌<◌, ◌^◌, List, [], ◌++◌, ◌≡◌};
ghost use Rattle.model.specs.declared.Sent.{Sent};
ghost use Rattle.play.specs.Log.{log_of};
ghost use Rattle.shares.specs.Share.{shares_of};
ghost use Rattle.shares.specs.Reading.{with_packet, Readable};

use model::FLOW_LIMIT;

// What was sent. The largest is 0 where nothing was.
#[derive(Clone, Copy, Default)]
pub struct Share {
    pub packets: usize,
    pub bytes: usize,
    pub largest: usize,
}

#[derive(Clone, Copy)]
pub struct Shares {
    pub flows: [Share; FLOW_LIMIT],
    pub total: Share,
}

impl Share {
    // One packet more.
    fn with_packet(self, size: usize) -> Self
        requires packets_bound { self.packets + 1 < 2 ^ 64 }
        requires size_bound { self.bytes + size < 2 ^ 64 }
        ensures { result ≡ with_packet self size }
    {
        Share {
            packets: self.packets + 1,
            bytes: self.bytes + size,
            largest: self.largest.max(size),
        }
    }
}

impl Shares {
    pub fn new() -> Self
        ensures { result ≡ shares_of [] }
    {
        let none = Share::default();
        Shares {
            flows: [none; FLOW_LIMIT],
            total: none,
        }
    }

    // The departures in a log are counted in.
    pub fn with(mut self, log: &[u16]) -> Self
        requires { Readable self log.now }
        ensures { (before more : List Sent) → self ≡ shares_of before → log.now ≡ log_of more → result ≡ shares_of (before ++ more) }
    {
        let (departures, _) = log.as_chunks::<2>();
        for &[flow, size] in departures {
            let flow = flow as usize;
            let size = size as usize;
            self.flows[flow] = self.flows[flow].with_packet(size);
            self.total = self.total.with_packet(size);
        }
        self
    }
}
