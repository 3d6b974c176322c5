// Reads lines such as `NAND 0XX 1XX` from standard input and prints the class of each gate's output, a line each. For a
// line that describes no gate it prints the line's number and what is wrong with it, and goes on. A blank line names no
// function. Bytes that are no text are read as a character that no word has.
#![tactic(auto)]

use answers::Answer;
use gatelines::class_of_line;
use std::io;
use std::io::Read;

// The loop stands in each program that answers lines: no public function here has a `requires`, and a function that takes what is
// done with a line as a closure would need one.
fn main(rt: HostRuntime) -> io::Result<()> {
    let mut bytes = Vec::new(rt.alloc());
    let _ = rt.stdin().read_to_end(&mut bytes)?;
    let text = String::from_utf8_lossy(rt.alloc(), &bytes)?;
    for (number, line) in (1u64..).zip(text.lines()) {
        // a class is printed by itself: in an answer it cost a copy of the buffer that the line is printed from
        match class_of_line(line) {
            Ok(class) => println!(rt; "{class}")?,
            outcome => println!(rt; "{}", Answer { number, outcome })?,
        }
    }
    Ok(())
}
