// Where the flows and the line of a state lie: in one array of bytes, so that a caller can lend the whole of it and a call changes in place what it
// concerns. First, for each flow, the sizes of its waiting packets; then, for each flow, its other numbers; then the line. No user calls these functions.
// The bytes are a slice whose length is asked, and no array: those that C lends are a part of an image. A flow's number is asked to be in range and is no type of
// its own, since `turns::whose` answers for any round.
#![tactic(auto)]

ghost use Rattle.std.specs.Prelude.{◌≡◌, ◌≤◌, ◌<◌, ◌+◌, length, take, drop};
ghost use Rattle.model.specs.Limits.{flow_limit};
ghost use Rattle.layout.specs.Bytes.{byte_limit, sizes_room, number, with_sizes};
ghost use Rattle.layout.specs.Layout.{cells_length, flow_in, with_flow, with_opened};

use model::{FLOW_LIMIT, QUEUE_LIMIT};
use steps::{FlowCell, LINE_ROOM};

// The sizes of a flow's packets, each less one, a byte each.
const SIZES: usize = QUEUE_LIMIT as usize;

// Its weight, surplus, slot and how many packets wait, a byte each.
const NUMBERS: usize = 4;

// Where the numbers of the flows begin, and where the line does.
const NUMBERS_START: usize = SIZES * FLOW_LIMIT;

pub const LINE_START: usize = NUMBERS_START + NUMBERS * FLOW_LIMIT;

// How many bytes there are.
pub const CELLS: usize = LINE_START + LINE_ROOM;

// The number whose digits lie from a place on, the lowest first.
fn number_at(cells: &[u8], at: usize) -> u64
    requires { at + sizes_room ≤ length cells.now }
    ensures { result ≡ number (take sizes_room (drop at cells.now)) }
{
    u64::from_le_bytes(*cells[at..at + SIZES].as_array().unwrap())
}

// Stores a number's digits from a place on, the lowest first.
fn put_number(cells: &mut [u8], at: usize, n: u64)
    requires { at + sizes_room ≤ length cells.old }
    ensures { cells.new ≡ with_sizes cells.old at n }
{
    cells[at..at + SIZES].copy_from_slice(&n.to_le_bytes());
}

pub fn flow_at(cells: &[u8], f: usize) -> FlowCell
    requires all_cells { length cells.now ≡ cells_length }
    requires flow_in_range { f < flow_limit }
    ensures { result ≡ flow_in cells.now f }
{
    let at = NUMBERS_START + NUMBERS * f;
    let sizes = number_at(cells, SIZES * f);
    FlowCell {
        weight: cells[at] as u16,
        surplus: cells[at + 1] as u16,
        slot: cells[at + 2],
        waiting: cells[at + 3],
        sizes,
    }
}

// Stores a flow whose weight lies there already.
pub fn put_flow(cells: &mut [u8], f: usize, x: FlowCell)
    requires all_cells { length cells.old ≡ cells_length }
    requires flow_in_range { f < flow_limit }
    requires surplus_fits { x.surplus < byte_limit }
    ensures { cells.new ≡ with_flow cells.old f x }
{
    put_number(cells, SIZES * f, x.sizes);
    let at = NUMBERS_START + NUMBERS * f;
    cells[at + 1] = x.surplus as u8;
    cells[at + 2] = x.slot;
    cells[at + 3] = x.waiting;
}

// Stores a flow with its weight.
pub fn put_opened(cells: &mut [u8], f: usize, x: FlowCell)
    requires all_cells { length cells.old ≡ cells_length }
    requires flow_in_range { f < flow_limit }
    requires weight_fits { x.weight < byte_limit }
    requires surplus_fits { x.surplus < byte_limit }
    ensures { cells.new ≡ with_opened cells.old f x }
{
    let at = NUMBERS_START + NUMBERS * f;
    cells[at] = x.weight as u8;
    put_flow(cells, f, x);
}
