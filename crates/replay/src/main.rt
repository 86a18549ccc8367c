// Replays a kept list of the oracle's answers, on standard input, and prints how many of the part's are alike:
// a line for each function (name, answers, answers alike) and a total, fields parted by tabs.
// It may use casts, elementary, the exported functions and vectors.
#![tactic(auto)]

mod function;

use function::Function;
use std::io::{self, Read};
use vectors::Tally;

// A line is a name, two arguments and the oracle's answer.
const LINE: usize = 58;

// Counts the line's answer. A name of no function counts as answered by 0.
fn replay(tally: &mut Tally<13>, line: &[u8; LINE]) {
    let function = vectors::kind_of(&Function::ALL, line);
    let [first, second, kept] = vectors::numbers::<3>(&line[7..]);
    let answer = function.map_or(0, |function| function.answer(first, second));
    tally.count(function, answer == kept);
}

// The tally of the whole lines.
fn tallied<R: Read>(input: &mut R) -> io::Result<Tally<13>> {
    let mut tally = Tally::new();
    let mut line = [0; LINE];
    for _ in 0..u64::MAX {
        if vectors::read_full(input, &mut line)? < LINE {
            break;
        }
        replay(&mut tally, &line);
    }
    Ok(tally)
}

fn main(rt: HostRuntime) -> io::Result<()> {
    let tally = tallied(&mut rt.stdin())?;
    tally.print(&rt, &Function::ALL)
}
