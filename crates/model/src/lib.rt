// What the calls of every layer say to each other and to the caller, and the numbers of document 01's table that code compares with.
// The model of Elastic Round Robin that all contracts cite is in specs/.
#![tactic(auto)]

ghost use Rattle.std.specs.Prelude.{◌≡◌};
ghost use Rattle.model.specs.Replies.{number_of};

// Flow numbers are 0 to 31.
pub const FLOW_LIMIT: usize = 32;
// Weights are 1 to 16.
pub const WEIGHT_LIMIT: usize = 16;
// Packet sizes are 1 to 256 bytes.
pub const SIZE_LIMIT: usize = 256;
// At most 8 packets of a flow wait.
pub const QUEUE_LIMIT: u8 = 8;

// Document 01's refusals, each with its number.
#[derive(Clone, Copy, Debug, PartialEq, Eq)]
pub enum Refusal {
    NoSuchFlow = 1,
    BadWeight = 2,
    OpenAlready = 3,
    NotOpen = 4,
    BadSize = 5,
    QueueFull = 6,
    OutShort = 7,
    StoreWrong = 8,
    ListShort = 9,
}

impl From<Refusal> for u8 {
    ghost from_gives = { λ refusal number. number ≡ number_of refusal };

    fn from(refusal: Refusal) -> u8 {
        refusal as u8
    }
}

// Either no turn is open, or one is, with its flow, allowance and bytes sent so far. Document 01 asks for this enum, and so it is no Option.
#[derive(Clone, Copy)]
pub enum Serving {
    NoTurn,
    Turn(u8, u16, u16),
}

// What a departure reply tells: the flow, the packet's size, the round's mark and the turn's allowance.
#[derive(Clone, Copy)]
pub struct Sent {
    pub flow: u8,
    pub size: u16,
    pub mark: u16,
    pub allowance: u16,
}

// What a departure call replies with. Document 01 asks for this enum, and so it is no Result.
#[derive(Clone, Copy)]
pub enum Reply {
    Departure(Sent),
    Idle,
    Refused(Refusal),
}

// What a call hands back: the state, and its reply beside it.
#[derive(Clone, Copy)]
pub struct Outcome<S, R> {
    pub state: S,
    pub reply: R,
}
