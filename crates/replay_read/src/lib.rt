// Reads the cases of a file one after another, replays each and counts.
// What a file holds no promise can say, so each promise is over the bytes that were read, which stand in lent slices:
// what is counted is what the definitions say of these bytes. Nor can it say that there were bytes to read: `End`, and
// `Broken`, which counts as a difference, are allowed at any time. How many cases were read, the program prints.
#![tactic(auto)]

ghost use Rattle.vectors.specs.declared.call.Call.{Call};
ghost use Rattle.replay_read.specs.Read.{ChartRead, PartRead, CaseRead, FileRead};

use replay_cases::count::{Replay, Replayed};
use replay_cases::{MOST_BODY, MOST_PART, Next};
use std::fs::File;
use vectors::call::Call;
use vectors::case::{Case, Head};
use vectors::room::Spare;

// Reads the body of a case with a chart of its own, and replays it.
fn chart_case(file: &mut File, spare: Spare, h: Head, body: &mut [u8]) -> Replayed
    ensures { ChartRead h spare.places body.new result }
{
    let size = h.size;
    if body.len() < size {
        return Replayed::Broken;
    }
    if reading::read_full(file, &mut body[..size]) != size {
        return Replayed::Broken;
    }
    let case = Case {
        head: h,
        bytes: &body[..size],
    };
    let held = replay_cases::chart_holds(case, spare);
    Replayed::Chart(h, held)
}

// Reads a case on the chart whose body is at hand, and replays it. The chart comes as its head and the whole array,
// whose front its body is: as one value it would be no plainer, since how much that is has to be tested here.
fn part_case(
    file: &mut File,
    spare: Spare,
    chart: Head,
    body: &[u8],
    h: Head,
    part: &mut [u8],
) -> Replayed
    ensures { PartRead chart body.now h spare.places part.new result }
{
    let size = h.size;
    let whole = chart.size;
    if body.len() < whole {
        return Replayed::Broken;
    }
    if part.len() < size {
        return Replayed::Broken;
    }
    if reading::read_full(file, &mut part[..size]) != size {
        return Replayed::Broken;
    }
    let on = Case {
        head: chart,
        bytes: &body[..whole],
    };
    let case = Case {
        head: h,
        bytes: &part[..size],
    };
    let held = replay_cases::part_holds(on, case, spare);
    Replayed::Part(h, held)
}

// Reads and replays the next case of the file of this call's charts. `body` has the last chart's body.
fn next_case(
    file: &mut File,
    call: Call,
    r: Replay,
    head: &mut [u8; 8],
    body: &mut [u8],
    part: &mut [u8],
) -> Replayed
    ensures { CaseRead call r head.new body.old body.new part.new result }
{
    let got = reading::read_full(file, head);
    if got == 0 {
        return Replayed::End;
    }
    if got != 8 {
        return Replayed::Broken;
    }
    let h = vectors::case::read_head(head);
    let spare = r.spare();
    match replay_cases::follows(call, h) {
        Next::Body => chart_case(file, spare, h, body),
        Next::Part => part_case(file, spare, r.chart, body, h, part),
        Next::Nothing => Replayed::Broken,
    }
}

// Replays the cases of the file of this call's charts, up to its end. A `for` over the cases that may follow would be
// no plainer: that none is left is how the promise says that the file was read.
pub fn replay_all(file: &mut File, call: Call) -> Replay
    ensures { FileRead call result }
{
    let mut head = [0u8; 8];
    let mut body = [0u8; MOST_BODY];
    let mut part = [0u8; MOST_PART];
    let mut r = Replay::start();
    while r.left > 0 {
        let c = next_case(file, call, r, &mut head, &mut body, &mut part);
        r = r.after(c);
    }
    r
}

// The replay of a file that can't be opened: it has no cases, whichever call it is of.
pub fn no_cases() -> Replay
    ensures { (call : Call) → FileRead call result }
{
    Replay::start().after(Replayed::End)
}
