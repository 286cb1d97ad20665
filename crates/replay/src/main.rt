// Replays the oracle's stored answers, data/answers.bin, whose form is in oracle/README.md, "The replay data": each case is handed to the exported
// calls, and what they answer and leave in everything lent is compared with what is stored. Prints one line, how many answers it compared (a
// ray of a walk is one, and so is a sky) and how many differed; or one line that says what is wrong with the data.
#![tactic(auto)]

mod input; // input.rt: words and numbers from the file
mod compare; // compare.rt: what a call left, against what is stored
mod score; // score.rt: how many were compared and how many differed
mod room; // room.rt: the lent rooms, and what they hold before a call
mod cases; // cases.rt: the five kinds of cases

use input::{Fault, Stored};
use score::Score;
use std::fs;
use std::io::Read;

fn main(rt: HostRuntime) {
    let Ok(mut file) = fs::open(&rt, "answers.bin") else {
        say(&rt, "replay: answers.bin cannot be opened");
        return;
    };
    match replay(&mut file) {
        Ok(score) => {
            let compared = score.compared;
            let differ = score.differ;
            let _ = println!(rt; "{compared} compared, {differ} differ");
        }
        Err(Fault::Cut) => say(&rt, "replay: answers.bin ends early"),
        Err(Fault::Large) => say(
            &rt,
            "replay: a list of answers.bin is longer than the room for it",
        ),
        Err(Fault::Unknown) => say(&rt, "replay: answers.bin is not of the form PIGEON03"),
    }
}

// Writes a line. One that cannot be written is let go, and the program ends as if it were.
fn say(rt: &impl Print, line: &str) {
    let _ = rt.println(line);
}

// The whole file: PIGEON03, how many cases, the cases, and nothing after them.
fn replay<R: Read>(file: &mut R) -> Result<Score, Fault> {
    let Ok(true) = compare::same(file, &[0x4547_4950u32, 0x3330_4e4f]) else {
        return Err(Fault::Unknown);
    };
    let cases = u32::read(file)?;
    let mut score = Score {
        compared: 0,
        differ: 0,
    };
    for _ in 0..cases {
        score = cases::next(file, score)?;
    }
    if u8::read(file).is_ok() {
        return Err(Fault::Unknown);
    }
    Ok(score)
}
