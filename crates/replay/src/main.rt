// Replays the original's stored answers: calls build, encode, turns, colour, stretch, lesson, rhythm or record on each
// case of data/build, data/encode, data/colour and data/rhythm, compares all that it hands back, and prints how many
// cases there are and how many differ.
// What is counted `replay` promises. Of what is printed no promise can speak: tests/replay sees that it is the count.
#![tactic(auto)]

ghost use Rattle.replay_read.specs.Read.{FileRead};

use replay_cases::count::Replay;
use replay_cases::tally::Tally;
use std::fs::File;
use std::rt::Files;
use std::{fmt, io};
use vectors::call::Call;

// Replays the file of this call's charts. One that can't be opened has no cases.
fn replay(rt: &(impl Files<File = File> + Eprint), path: &str, call: Call) -> Replay
    ensures { FileRead call result }
{
    match File::open(rt, path) {
        Ok(mut file) => replay_read::replay_all(&mut file, call),
        Err(e) => {
            let _said = eprintln!(rt; "{path}: {e}");
            replay_read::no_cases()
        }
    }
}

// What is printed of a call: how many cases, how many objects and what these are called where the cases have charts of
// their own, how many cases differ, and on a line of its own the first of those.
#[derive(Clone, Copy)]
struct Line<'a> {
    call: &'a str,
    tally: Tally,
    objects: Option<(u64, &'a str)>,
}

impl fmt::Display for Line<'_> {
    fn fmt<W: fmt::Write>(&self, f: &mut fmt::Formatter<W>) -> fmt::Result {
        write!(f, "{}: {} cases, ", self.call, self.tally.cases)?;
        if let Some((count, name)) = self.objects {
            write!(f, "{count} {name}, ")?;
        }
        write!(f, "{} differ", self.tally.differ)?;
        if let Some(first) = self.tally.first {
            write!(f, "\nfirst that differs: case {first}")?;
        }
        Ok(())
    }
}

// Of a call whose cases have charts of their own, and what their objects are called.
fn charts<'a>(call: &'a str, r: Replay, name: &'a str) -> Line<'a> {
    Line {
        call,
        tally: r.charts,
        objects: Some((r.objects, name)),
    }
}

// Of a call whose cases are parts of such a chart.
fn parts(call: &str, tally: Tally) -> Line<'_> {
    Line {
        call,
        tally,
        objects: None,
    }
}

fn main(rt: HostRuntime) -> io::Result<()> {
    let build = replay(&rt, "build", Call::Build);
    println!(&rt; "{}", charts("build", build, "objects"))?;
    let encode = replay(&rt, "encode", Call::Encode);
    println!(&rt; "{}", charts("encode", encode, "objects"))?;
    println!(&rt; "{}", parts("turns", encode.parts))?;
    let colour = replay(&rt, "colour", Call::Colour);
    println!(&rt; "{}", charts("colour", colour, "values"))?;
    println!(&rt; "{}", parts("stretch", colour.parts))?;
    println!(&rt; "{}", parts("lesson", colour.lessons))?;
    let rhythm = replay(&rt, "rhythm", Call::Rhythm);
    println!(&rt; "{}", charts("rhythm", rhythm, "objects"))?;
    println!(&rt; "{}", parts("record", rhythm.parts))
}
