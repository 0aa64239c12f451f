// The archive behind include/houghbreeze.h: each call of crate houghbreeze, under its name in C and with its clauses.
#![tactic(auto)]

ghost use Rattle.image.specs.Image.{SoundImage};
ghost use Rattle.houghbreeze.specs.Promised.{ResetGives, OpenGives, OfferGives, DepartGives, BurstGives, SiteResetGives, SiteOpenGives, SiteOfferGives, SiteDepartGives};

use image::{HbReply, IMAGE};

#[unsafe(no_mangle)]
pub extern "C" fn hb_reset(s: &mut [u8; IMAGE])
    ensures { ResetGives s.new }
{
    houghbreeze::hb_reset(s);
}

#[unsafe(no_mangle)]
pub extern "C" fn hb_open(s: &mut [u8; IMAGE], flow: usize, weight: usize) -> HbReply
    requires { SoundImage s.old }
    ensures { OpenGives s.old flow weight s.new result }
{
    houghbreeze::hb_open(s, flow, weight)
}

#[unsafe(no_mangle)]
pub extern "C" fn hb_offer(s: &mut [u8; IMAGE], flow: usize, size: usize) -> HbReply
    requires { SoundImage s.old }
    ensures { OfferGives s.old flow size s.new result }
{
    houghbreeze::hb_offer(s, flow, size)
}

#[unsafe(no_mangle)]
pub extern "C" fn hb_depart(s: &mut [u8; IMAGE]) -> HbReply
    requires { SoundImage s.old }
    ensures { DepartGives s.old s.new result }
{
    houghbreeze::hb_depart(s)
}

#[unsafe(no_mangle)]
pub extern "C" fn hb_burst(s: &mut [u8; IMAGE], n: usize, list: &mut [u8]) -> HbReply
    requires { SoundImage s.old }
    ensures { BurstGives s.old n list.old list.new s.new result }
{
    houghbreeze::hb_burst(s, n, list)
}

#[unsafe(no_mangle)]
pub extern "C" fn hb_site_reset(s: &mut [u8; IMAGE])
    ensures { SiteResetGives s.new }
{
    houghbreeze::hb_site_reset(s);
}

#[unsafe(no_mangle)]
pub extern "C" fn hb_site_open(s: &mut [u8; IMAGE], flow: usize, weight: usize) -> HbReply
    requires { SoundImage s.old }
    ensures { SiteOpenGives s.old flow weight s.new result }
{
    houghbreeze::hb_site_open(s, flow, weight)
}

#[unsafe(no_mangle)]
pub extern "C" fn hb_site_offer(
    s: &mut [u8; IMAGE],
    flow: usize,
    packet: &[u8],
    store: &mut [u8],
) -> HbReply
    requires { SoundImage s.old }
    ensures { SiteOfferGives s.old flow packet.now store.old store.new s.new result }
{
    houghbreeze::hb_site_offer(s, flow, packet, store)
}

#[unsafe(no_mangle)]
pub extern "C" fn hb_site_depart(s: &mut [u8; IMAGE], store: &[u8], out: &mut [u8]) -> HbReply
    requires { SoundImage s.old }
    ensures { SiteDepartGives s.old store.now out.old out.new s.new result }
{
    houghbreeze::hb_site_depart(s, store, out)
}
