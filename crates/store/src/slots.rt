// Where bytes lie.
ghost use Rattle.std.specs.Prelude.{◌≡◌, ◌++◌, ◌≤◌, ◌<◌, length, drop};
ghost use Rattle.model.specs.Limits.{flow_limit, queue_limit, size_limit};
ghost use Rattle.store.specs.Slots.{store_length, out_limit, slot_start, written, held};

use crate::bytes::copy_in;
use model::{QUEUE_LIMIT, SIZE_LIMIT};

// The byte at which slot k of flow f begins.
#[tactic(auto, unfolding(crate::specs::Slots::slot_start))]
fn start(f: usize, k: usize) -> usize
    requires { (f < flow_limit) × (k < queue_limit) }
    ensures { result ≡ slot_start f k }
{
    SIZE_LIMIT * (QUEUE_LIMIT as usize * f + k)
}

// Writes a packet in slot k of flow f. A `Place` would bring a second length beside the packet's.
pub fn write(store: &mut [u8], f: usize, k: usize, packet: &[u8])
    requires whole_store { length store.old ≡ store_length }
    requires flow_in_range { f < flow_limit }
    requires slot_in_range { k < queue_limit }
    requires size_in_range { length packet.now ≤ size_limit }
    ensures { store.new ≡ written store.old f k packet.now }
{
    let at = start(f, k);
    copy_in(&mut store[at..], packet);
}

// Copies the n bytes of slot k of flow f to the start of out. Three numbers and no `Place`, as each bound is asked of one of them: a place is also told of flows in
// no sound state, and so keeps none.
pub fn read(store: &[u8], f: usize, k: usize, n: usize, out: &mut [u8])
    requires whole_store { length store.now ≡ store_length }
    requires flow_in_range { f < flow_limit }
    requires slot_in_range { k < queue_limit }
    requires size_in_range { n ≤ size_limit }
    requires room { out_limit ≤ length out.old }
    ensures { out.new ≡ held store.now f k n ++ drop n out.old }
{
    let at = start(f, k);
    let end = at + n;
    copy_in(out, &store[at..end]);
}
