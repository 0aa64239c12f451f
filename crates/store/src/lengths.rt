// What the lengths lent refuse, before anything else is looked at.
ghost use Rattle.std.specs.Prelude.{◌≡◌, Ok, Err, cond, length, eqb};
ghost use Rattle.model.specs.declared.Refusal.TheVariants.{StoreWrong};
ghost use Rattle.store.specs.Slots.{store_length};
ghost use Rattle.store.specs.Calls.{store_depart_answer};

use crate::STORE_LENGTH;
use model::{Refusal, SIZE_LIMIT};

pub fn may_offer(store: &[u8]) -> Result<(), Refusal>
    ensures { result ≡ cond (eqb (length store.now) store_length) (Ok tt) (Err StoreWrong) }
{
    if store.len() != STORE_LENGTH {
        return Err(Refusal::StoreWrong);
    }
    Ok(())
}

pub fn may_depart(store: &[u8], out: &[u8]) -> Result<(), Refusal>
    ensures { result ≡ store_depart_answer store.now out.now }
{
    may_offer(store)?;
    if out.len() < SIZE_LIMIT {
        return Err(Refusal::OutShort);
    }
    Ok(())
}
