// Recorded replays: for each name among the arguments, says whether the replay of NAME.in prints what NAME.out has.
// `reference/vectors.sh` records them, with a program that shares no code with this one.
#![tactic(auto)]

ghost use Rattle.std.specs.Prelude.{IfSome};
ghost use Rattle.intake.specs.Intake.{LieAtStart};

use play::{INPUT_LIMIT, OUTPUT_LIMIT};
use std::env::{Env, FillError};
use std::fs::File;
use std::io::{Print, Write};
use std::rt::Files;
use std::{io, str};

// So many bytes hold any path.
const PATH_LIMIT: usize = 4_096;

fn main(rt: HostRuntime) {
    // the first argument is the program's own name; an index, since std's `env::args` wants the heap, up to the first that is missing, since a count would ask
    // for each twice
    for i in 1..usize::MAX {
        let mut name = [0u8; PATH_LIMIT];
        match rt.arg(i, &mut name) {
            Ok(length) => compare(&rt, &name[..length]),
            // a name that is too long for any file counts as an empty one
            Err(FillError::TooLong) => compare(&rt, b""),
            Err(FillError::NotPresent) => return,
        }
    }
}

// The vector of this name.
fn compare<R: Files + Print>(rt: &R, name: &[u8]) {
    let mut out = io::writer(rt);
    let _ = out.write_all(name);
    // a file that cannot be read differs
    let _ = match agrees(rt, name) {
        Some(true) => out.write_all(b" same\n"),
        _ => out.write_all(b" differs\n"),
    };
}

fn agrees<R: Files>(rt: &R, name: &[u8]) -> Option<bool> {
    // one byte more than an input may have, to find one that is too long
    let mut input = [0u8; INPUT_LIMIT + 1];
    let length = contents(rt, name, b".in", &mut input)?;
    // one byte more than a transcript may have, to find an output that is longer
    let mut recorded = [0u8; OUTPUT_LIMIT + 1];
    let end = contents(rt, name, b".out", &mut recorded)?;
    let mut out = [0u8; OUTPUT_LIMIT];
    let written = play::transcribe(&input[..length], &mut out);
    Some(check::same(&out[..written], &recorded[..end]))
}

// How many bytes the file of this name and ending has, read into the buffer. The sheet reads a file so too; a function for these three lines would be no plainer.
fn contents<R: Files>(rt: &R, name: &[u8], ending: &[u8], buffer: &mut [u8]) -> Option<usize>
    ensures { IfSome result (λ n. LieAtStart n buffer.new) }
{
    let mut path = [0u8; PATH_LIMIT];
    let dot = name.len();
    let end = dot + ending.len();
    path.get_mut(..dot)?.copy_from_slice(name);
    path.get_mut(dot..end)?.copy_from_slice(ending);
    let path = str::from_utf8(&path[..end]).ok()?;
    let mut file = File::open(rt, path).ok()?;
    intake::whole(&mut file, buffer).ok()
}
