// Reads a source to its end. It knows an end from a failed read, so that no program takes a part for the whole.
#![tactic(auto)]

ghost use Rattle.intake.specs.Intake.{Within};

use std::io;
use std::io::Read;

// Reads until the source ends or the buffer is full. The bytes that were read lie at the start of the buffer, so many.
pub fn whole<R: Read>(source: &mut R, buffer: &mut [u8]) -> io::Result<usize>
    ensures { Within result buffer.new }
{
    let mut at = 0;
    // std's `read_to_end` wants the heap, and its `read_exact` does not say how many bytes a short source had
    while at < buffer.len() {
        let more = source.read(&mut buffer[at..])?;
        if more == 0 {
            break;
        }
        at += more;
    }
    Ok(at)
}
