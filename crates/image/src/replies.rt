// A call's answer, reply or count as C reads it.
ghost use Rattle.std.specs.Prelude.{◌≡◌, ◌<◌};
ghost use Rattle.model.specs.Replies.{number_of};
ghost use Rattle.image.specs.Replies.{reply as reply_of, refused_kind, number_of_kind, of_answer, of_offer, of_reply, of_count, CountFits, SlotFits};

use crate::HbReply;
use model::{Refusal, Reply};
use steps::Place;

// What a reply is. HbReply has its number, a u16, since an exported function gives C no enum.
#[derive(Clone, Copy)]
pub enum Kind {
    Done = 0,
    Departure = 1,
    Idle = 2,
    Refused = 3,
    Count = 4,
}

// What a reply's kind does not have is 0.
fn bare(kind: Kind, refusal: u16) -> HbReply
    ensures { result ≡ reply_of (number_of_kind kind) refusal }
{
    HbReply {
        kind: kind as u16,
        refusal,
        ..HbReply::default()
    }
}

pub fn refused(refusal: Refusal) -> HbReply
    ensures { result ≡ reply_of refused_kind (number_of refusal) }
{
    bare(Kind::Refused, refusal as u16)
}

// The kind of an answer, and the number of its refusal or 0.
fn kind_of(answer: Result<(), Refusal>) -> (Kind, u16)
    ensures { reply_of (number_of_kind result.0) result.1 ≡ of_answer answer 0 }
{
    match answer {
        Ok(()) => (Kind::Done, 0),
        Err(refusal) => (Kind::Refused, refusal as u16),
    }
}

// The answer of a call that tells no place. The reply is made once: where two replies meet, one is copied.
pub fn of_answer(answer: Result<(), Refusal>) -> HbReply
    ensures { result ≡ of_answer answer 0 }
{
    let (kind, refusal) = kind_of(answer);
    bare(kind, refusal)
}

pub fn of_offer(offer: Result<Place, Refusal>) -> HbReply
    requires { SlotFits offer }
    ensures { result ≡ of_offer offer }
{
    match offer {
        Ok(place) => HbReply {
            slot: place.slot as u16,
            ..bare(Kind::Done, 0)
        },
        Err(refusal) => refused(refusal),
    }
}

pub fn of_reply(reply: Reply, slot: usize) -> HbReply
    requires { slot < 65536 }
    ensures { result ≡ of_reply reply slot }
{
    match reply {
        Reply::Departure(sent) => HbReply {
            flow: sent.flow as u16,
            size: sent.size,
            mark: sent.mark,
            allowance: sent.allowance,
            slot: slot as u16,
            ..bare(Kind::Departure, 0)
        },
        Reply::Idle => bare(Kind::Idle, 0),
        Reply::Refused(refusal) => refused(refusal),
    }
}

pub fn of_count(count: Result<usize, Refusal>) -> HbReply
    requires { CountFits count }
    ensures { result ≡ of_count count }
{
    match count {
        Ok(made) => HbReply {
            count: made as u16,
            ..bare(Kind::Count, 0)
        },
        Err(refusal) => refused(refusal),
    }
}
