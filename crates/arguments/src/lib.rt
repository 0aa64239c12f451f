// The arguments that a program was started with.
#![tactic(auto)]

ghost use Rattle.std.specs.Prelude.{IfSome, SomeIff, ◌<◌, ◌^◌};
ghost use Rattle.std.specs.Str.Parse.{IsNumeral, digits_value};
ghost use Rattle.arguments.specs.Argument.{Begins};

use std::env::{Env, FillError};
use std::str;

// How many there are, the program's own name among them: the runtime tells only of each whether it is there, and no contract can say
// which are.
pub fn count<R: Env>(rt: &R) -> usize {
    (0..usize::MAX)
        .take_while(|&i| !matches!(rt.arg(i, &mut []), Err(FillError::NotPresent)))
        .count()
}

// The number that a word spells in decimal digits. One that has any other byte spells none: `parse` lets a plus stand before the digits.
fn spelled(word: &[u8]) -> Option<usize>
    ensures { SomeIff result (IsNumeral 10 word.now × (digits_value 10 word.now < 2 ^ 64)) (digits_value 10 word.now) }
{
    if word.first() == Some(&b'+') {
        return None;
    }
    str::from_utf8(word).ok()?.parse().ok()
}

// The number that an argument spells in decimal digits. One that is missing, has any other byte or is longer than the buffer spells none.
pub fn number<R: Env>(rt: &R, i: usize, buffer: &mut [u8]) -> Option<usize>
    ensures { IfSome result (Begins buffer.new) }
{
    let length = rt.arg(i, buffer).ok()?;
    spelled(&buffer[..length])
}
