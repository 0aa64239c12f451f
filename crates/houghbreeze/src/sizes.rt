// The calls on packet sizes, on the bytes of an image: the round is read off it, the call is made on the state's bytes in place, and what changed of the
// round is put back. They reply as the layer does; the calls above tell it to C. Each call reads the round off the whole image and lends the state's bytes of it,
// so each counts on their lengths.
#![tactic(auto, using(crate::proofs::SizesLaws::cells_lent))]

ghost use Rattle.image.specs.Image.{SoundImage, state_in};
ghost use Rattle.order.specs.Promised.{OpenGives, OfferGives, DepartGives, BurstGives};
ghost use Rattle.houghbreeze.specs.Promised.{Leaves};

use image::IMAGE;
use layout::CELLS;
use model::Refusal;
use order::{Departed, in_place};
use steps::Place;

pub fn open(bytes: &mut [u8; IMAGE], f: usize, weight: usize) -> Result<(), Refusal>
    requires { SoundImage bytes.old }
    ensures { Leaves (OpenGives (state_in bytes.old) f weight) bytes.new result }
{
    let round = image::round_at(bytes);
    in_place::open(&mut bytes[..CELLS], round, f, weight)
}

pub fn offer(bytes: &mut [u8; IMAGE], f: usize, size: usize) -> Result<Place, Refusal>
    requires { SoundImage bytes.old }
    ensures { Leaves (OfferGives (state_in bytes.old) f size) bytes.new result }
{
    let mut round = image::round_at(bytes);
    let reply = in_place::offer(&mut bytes[..CELLS], &mut round, f, size);
    // Of the round an offer changes the line's length only.
    bytes[image::LENGTH] = round.length;
    reply
}

pub fn depart(bytes: &mut [u8; IMAGE]) -> Departed
    requires { SoundImage bytes.old }
    ensures { Leaves (DepartGives (state_in bytes.old)) bytes.new result }
{
    let mut round = image::round_at(bytes);
    let reply = in_place::depart(&mut bytes[..CELLS], &mut round);
    image::put_round(bytes, round);
    reply
}

pub fn burst(bytes: &mut [u8; IMAGE], n: usize, list: &mut [u8]) -> Result<usize, Refusal>
    requires { SoundImage bytes.old }
    ensures { Leaves (BurstGives (state_in bytes.old) n list.old list.new) bytes.new result }
{
    let mut round = image::round_at(bytes);
    let reply = in_place::burst(&mut bytes[..CELLS], &mut round, n, list);
    image::put_round(bytes, round);
    reply
}
