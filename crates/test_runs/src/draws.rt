// The numbers that a call is made with. Every call draws all of them and uses those it needs.
ghost use Rattle.std.specs.Prelude.{◌<◌};

// Which call. The store layer has no burst, and makes a departure instead.
#[derive(Clone, Copy, PartialEq, Eq, Debug)]
pub enum Kind {
    Reset,
    Open,
    Offer,
    Depart,
    Burst,
}

// A call and what it is made with: a flow and a weight, a packet's length, a size where it is a number, and how many departures; how many bytes of the
// list, the store and the outgoing buffer are lent; and a packet's first byte, and the step from byte to byte.
#[derive(Clone, Copy)]
pub struct Call {
    pub kind: Kind,
    pub flow: usize,
    pub weight: usize,
    pub length: usize,
    pub size: usize,
    pub departures: usize,
    pub list: usize,
    pub store: usize,
    pub out: usize,
    pub first: u8,
    pub step: u8,
}

// The seed, and the generator's number.
#[derive(Clone, Copy)]
pub struct Draws {
    seed: u32,
    x: u32,
}

impl Draws {
    pub fn new(seed: u32) -> Draws {
        Draws {
            seed,
            x: 1 + seed % 2147483646,
        }
    }

    // A number below n.
    fn draw(&mut self, n: u32) -> u32
        requires { 0 < n }
        ensures { result < n }
    {
        self.x = (u64::from(self.x) * 48271 % 2147483647) as u32;
        self.x % n
    }

    // What was drawn, seldom with a power of two added that a narrower number would lose.
    fn far(&mut self, drawn: u32) -> usize {
        let drawn = drawn as usize;
        match self.draw(64) {
            0 => drawn + 256,
            1 => drawn + 65536,
            2 => drawn + 4294967296,
            _ => drawn,
        }
    }

    // The length wanted, seldom up to two more or less, or none.
    fn near(&mut self, wanted: usize) -> usize {
        match self.draw(64) {
            k @ 0..=4 => wanted.saturating_add(k as usize).saturating_sub(2),
            5 => 0,
            _ => wanted,
        }
    }

    // A packet's length: often small, and often around the longest.
    fn length(&mut self) -> u32 {
        match self.draw(8) {
            0..=2 => self.draw(17),
            3 => 250 + self.draw(9),
            _ => self.draw(259),
        }
    }

    // The call that comes after so many others. Phases of 256 calls differ in how many flows there are to draw from.
    pub fn call(&mut self, before: u64) -> Call {
        let phase = u64::from(self.seed) + before / 256;
        let r = self.draw(2048);
        let flow = self.draw((1 + phase % 34 * 7 % 34) as u32);
        let flow = self.far(flow);
        let weight = self.draw(18);
        let weight = self.far(weight);
        let length = self.length();
        let size = self.far(length);
        let departures = self.draw(12);
        let departures = self.far(departures);
        let more = self.draw(3) as usize;
        let list = self.near(departures.saturating_add(more));
        let store = self.near(65536);
        let out = self.near(256);
        let [first, step, ..] = self.draw(65536).to_le_bytes();
        Call {
            kind: kind_of(phase, u64::from(r)),
            flow,
            weight,
            length: length as usize,
            size,
            departures,
            list,
            store,
            out,
            first,
            step,
        }
    }
}

// Phases differ in how many of 2,048 calls open and how many offer.
fn kind_of(phase: u64, r: u64) -> Kind {
    let opens = 1 + phase % 256 * 37 % 256;
    let load = 768 + phase % 1024 * 397 % 1024;
    match r {
        0 => Kind::Reset,
        r if r <= opens => Kind::Open,
        r if r <= opens + load => Kind::Offer,
        r if r % 4 == 0 => Kind::Burst,
        _ => Kind::Depart,
    }
}
