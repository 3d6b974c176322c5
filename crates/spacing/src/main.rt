// Reads lines such as `0 1 -5` from standard input: every flip of input 1 comes at least -5 ticks after every flip of input 0.
// Gives each to a spaced source and prints `ok`, or `no` and the number of the refusal. For a line that is no separation it
// prints the line's number and what is wrong, and goes on. At the end it prints what is held, by rising first input, then
// by rising second input. Bytes that are no text are read as a character that no number has.
#![tactic(auto)]

ghost use Rattle.std.specs.Prelude.{Some};
ghost use Rattle.spacing.specs.Reply.{reply_text};

use answers::Answer;
use ordering::{OrderSource, Spaced};
use separations::SeparationFault;
use spacinglines::Line;
use std::io::Read;
use std::{fmt, io};

// What comes of a separation that a source is given.
#[derive(Drop)]
struct Reply(Result<(), SeparationFault>);

impl fmt::Display for Reply {
    ghost output = { λ r. Some (reply_text r.0) };

    fn fmt<W: fmt::Write>(&self, f: &mut fmt::Formatter<W>) -> fmt::Result {
        match self.0 {
            Ok(()) => write!(f, "ok"),
            Err(fault) => write!(f, "no {}", fault.refusal().number),
        }
    }
}

// The loop stands in each program that answers lines: no public function here has a `requires`, and a function that takes what is
// done with a line as a closure would need one.
fn main(rt: HostRuntime) -> io::Result<()> {
    let mut bytes = Vec::new(rt.alloc());
    let _ = rt.stdin().read_to_end(&mut bytes)?;
    let text = String::from_utf8_lossy(rt.alloc(), &bytes)?;
    let mut source = Spaced::new();
    for (number, line) in (1u64..).zip(text.lines()) {
        let outcome = line
            .parse()
            .map(|Line { a, b, s }| Reply(source.separate(a, b, s)));
        println!(rt; "{}", Answer { number, outcome })?;
    }
    for (a, b, s) in source.separations() {
        println!(rt; "held {a} {b} {s}")?;
    }
    Ok(())
}
