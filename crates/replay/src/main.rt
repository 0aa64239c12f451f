// The replay program: event lines from standard input, the transcript to standard output. A failed read or write ends it quietly.
#![tactic(auto)]

use play::{INPUT_LIMIT, OUTPUT_LIMIT};
use std::io;
use std::io::Write;

fn main(rt: HostRuntime) {
    // one byte more than an input may have, to find one that is too long
    let mut input = [0u8; INPUT_LIMIT + 1];
    let Ok(length) = intake::whole(&mut rt.stdin(), &mut input) else {
        return;
    };
    // room for any transcript
    let mut out = [0u8; OUTPUT_LIMIT];
    let written = play::transcribe(&input[..length], &mut out);
    let _ = io::writer(&rt).write_all(&out[..written]);
}
