// The calls for firmware, as include/houghbreeze.h declares them and crate houghbreeze_c exports them. An image is lent and changed in place; a reply is
// handed back by value. The calls on bytes are the calls on sizes, with the packet's bytes moved beside them; reset and open do the same for a site, under
// the name that C declares for it. C has only bytes to give, so that they are a sound image is a clause of each call and of no type.
#![tactic(auto)]

ghost use Rattle.image.specs.Image.{SoundImage};
ghost use Rattle.houghbreeze.specs.Promised.{ResetGives, OpenGives, OfferGives, DepartGives, BurstGives, SiteResetGives, SiteOpenGives, SiteOfferGives, SiteDepartGives};

use image::{HbReply, IMAGE, replies};
use order::Departed;
use store::{lengths, slots};

mod sizes;

pub fn hb_reset(s: &mut [u8; IMAGE])
    ensures { ResetGives s.new }
{
    image::clear(s);
}

pub fn hb_open(s: &mut [u8; IMAGE], flow: usize, weight: usize) -> HbReply
    requires { SoundImage s.old }
    ensures { OpenGives s.old flow weight s.new result }
{
    replies::of_answer(sizes::open(s, flow, weight))
}

pub fn hb_offer(s: &mut [u8; IMAGE], flow: usize, size: usize) -> HbReply
    requires { SoundImage s.old }
    ensures { OfferGives s.old flow size s.new result }
{
    replies::of_offer(sizes::offer(s, flow, size))
}

pub fn hb_depart(s: &mut [u8; IMAGE]) -> HbReply
    requires { SoundImage s.old }
    ensures { DepartGives s.old s.new result }
{
    let Departed { reply, from } = sizes::depart(s);
    replies::of_reply(reply, from.slot)
}

pub fn hb_burst(s: &mut [u8; IMAGE], n: usize, list: &mut [u8]) -> HbReply
    requires { SoundImage s.old }
    ensures { BurstGives s.old n list.old list.new s.new result }
{
    replies::of_count(sizes::burst(s, n, list))
}

pub fn hb_site_reset(s: &mut [u8; IMAGE])
    ensures { SiteResetGives s.new }
{
    image::clear(s);
}

pub fn hb_site_open(s: &mut [u8; IMAGE], flow: usize, weight: usize) -> HbReply
    requires { SoundImage s.old }
    ensures { SiteOpenGives s.old flow weight s.new result }
{
    hb_open(s, flow, weight)
}

pub fn hb_site_offer(s: &mut [u8; IMAGE], flow: usize, packet: &[u8], store: &mut [u8]) -> HbReply
    requires { SoundImage s.old }
    ensures { SiteOfferGives s.old flow packet.now store.old store.new s.new result }
{
    if let Err(refusal) = lengths::may_offer(store) {
        return replies::refused(refusal);
    }
    match sizes::offer(s, flow, packet.len()) {
        Ok(place) => {
            slots::write(store, place.flow, place.slot, packet);
            replies::of_offer(Ok(place))
        }
        Err(refusal) => replies::refused(refusal),
    }
}

pub fn hb_site_depart(s: &mut [u8; IMAGE], store: &[u8], out: &mut [u8]) -> HbReply
    requires { SoundImage s.old }
    ensures { SiteDepartGives s.old store.now out.old out.new s.new result }
{
    if let Err(refusal) = lengths::may_depart(store, out) {
        return replies::refused(refusal);
    }
    let Departed { reply, from } = sizes::depart(s);
    // Where nothing departs the size is 0, and nothing is copied.
    slots::read(store, from.flow, from.slot, from.size, out);
    replies::of_reply(reply, from.slot)
}
