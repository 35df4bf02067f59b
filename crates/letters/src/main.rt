// Reads a drill from standard input and prints a line for each of its hit patterns, or what is wrong with the text.
#![tactic(auto)]

use letters_answer::INPUT_BYTES;
use std::io;
use std::io::Write;

fn main(rt: HostRuntime) -> io::Result<()> {
    let mut input = [0u8; INPUT_BYTES];
    let output = letters_answer::answer_input(&mut rt.stdin(), &mut input);
    rt.stdout().write_all(output.as_str().as_bytes())
}
