// The line: flow numbers that lie from the start of their bytes, with zeros behind.
ghost use Rattle.std.specs.Prelude.{◌≡◌, ◌++◌, length, drop, ◌-◌};
ghost use Rattle.steps.specs.Cells.{line_room};

use crate::LINE_ROOM;

// Takes the first byte out: the others move down, and the last stays where it is as well. How many move is a constant, so it is one move of whole words.
pub fn shift(cells: &mut [u8])
    requires { length cells.old ≡ line_room }
    ensures { cells.new ≡ drop 1 cells.old ++ drop (length cells.old - 1) cells.old }
{
    cells.copy_within(1..LINE_ROOM, 0);
}
