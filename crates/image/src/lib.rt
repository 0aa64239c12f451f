// The image of a state as firmware keeps it: the bytes of its flows and its line, and then the round's numbers; and what C reads as a reply.
#![tactic(auto)]

ghost use Rattle.std.specs.Prelude.{◌≡◌, ◌∷◌, ◌++◌, ◌≤◌, ◌<◌, ◌+◌, length, take, replicate};
ghost use Rattle.std.proofs.lemmas.List.Edits.{sets};
ghost use Rattle.layout.specs.Bytes.{digits};
ghost use Rattle.layout.specs.Layout.{cells_length};
ghost use Rattle.image.specs.Image.{pair_room, pair_in, image_length, TurnFits, turn_from, round_in, round_bytes};

use layout::CELLS;
use model::Serving;
use steps::RoundCell;

pub mod replies;

// What C reads as a reply. Numbers only, since an exported function gives no enum: `kind` is a `replies::Kind`, and `refusal` is a `model::Refusal` or 0.
#[repr(C)]
#[derive(Clone, Copy, Default)]
pub struct HbReply {
    pub kind: u16,
    pub refusal: u16,
    pub flow: u16,
    pub size: u16,
    pub mark: u16,
    pub allowance: u16,
    pub count: u16,
    pub slot: u16,
    pub later: [u16; 8],
}

// Where each number of the round lies, behind the bytes of the flows and the line; and how many bytes there are.
pub const LENGTH: usize = CELLS;

const VISITS: usize = LENGTH + 1;

const MARK: usize = VISITS + 1;

const RUNNING: usize = MARK + 2;

const TURN: usize = RUNNING + 2;

const ALLOWED: usize = TURN + 1;

const SENT: usize = ALLOWED + 2;

pub const IMAGE: usize = SENT + 2;

// A number of two bytes, the lower first. Layout's functions for eight bytes are not these made generic: no trait of std's has `from_le_bytes`.
fn pair_at(image: &[u8], at: usize) -> u16
    requires { at + pair_room ≤ length image.now }
    ensures { result ≡ pair_in image.now at }
{
    u16::from_le_bytes([image[at], image[at + 1]])
}

#[tactic(auto, using(crate::proofs::RoundBytes::pair_stored))]
fn put_pair(image: &mut [u8], at: usize, n: u16)
    requires { at + pair_room ≤ length image.old }
    ensures { image.new ≡ sets image.old at (digits pair_room n) }
{
    let [low, high] = n.to_le_bytes();
    image[at] = low;
    image[at + 1] = high;
}

// A turn's flow and one more lies there; 0 where no turn is open, since an image of zeros is a new state to C.
#[tactic(auto, unfolding(crate::specs::Image::turn_from))]
fn turn_of(f: u8, allowed: u16, sent: u16) -> Serving
    ensures { result ≡ turn_from f allowed sent }
{
    if f == 0 {
        Serving::NoTurn
    } else {
        Serving::Turn(f - 1, allowed, sent)
    }
}

pub fn round_at(image: &[u8]) -> RoundCell
    requires { length image.now ≡ image_length }
    ensures { result ≡ round_in image.now }
{
    RoundCell {
        length: image[LENGTH],
        visits: image[VISITS],
        mark: pair_at(image, MARK),
        running: pair_at(image, RUNNING),
        turn: turn_of(image[TURN], pair_at(image, ALLOWED), pair_at(image, SENT)),
    }
}

#[tactic(auto, using(crate::proofs::RoundBytes::turn_stored))]
fn put_turn(image: &mut [u8], f: u8, allowed: u16, sent: u16)
    requires { length image.old ≡ image_length }
    ensures { image.new ≡ sets image.old (cells_length + 6) (f ∷ digits pair_room allowed ++ digits pair_room sent) }
{
    image[TURN] = f;
    put_pair(image, ALLOWED, allowed);
    put_pair(image, SENT, sent);
}

pub fn put_round(image: &mut [u8], r: RoundCell)
    requires image_len { length image.old ≡ image_length }
    requires turn_fits { TurnFits r.turn }
    ensures { image.new ≡ take cells_length image.old ++ round_bytes r }
{
    image[LENGTH] = r.length;
    image[VISITS] = r.visits;
    put_pair(image, MARK, r.mark);
    put_pair(image, RUNNING, r.running);
    match r.turn {
        Serving::Turn(f, allowed, sent) => put_turn(image, f + 1, allowed, sent),
        Serving::NoTurn => put_turn(image, 0, 0, 0),
    }
}

// A byte that is 0 is not written: a loop that writes every byte, as `fill`, would become a call of C's memset, and the archive may call nothing.
pub fn clear(image: &mut [u8])
    ensures { image.new ≡ replicate (length image.old) 0 }
{
    for byte in image.iter_mut() {
        if *byte != 0 {
            *byte = 0;
        }
    }
}
