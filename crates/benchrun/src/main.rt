// Reads a circuit file from standard input and prints what it holds or why it is refused.
#![tactic(auto)]

use session::line::circuit_line;
use std::io::Read;

// what lies past this many bytes is not input
const MOST: u64 = 32_768;

fn main(rt: HostRuntime) -> anyhow::Result<()> {
    let mut bytes = Vec::new(rt.alloc());
    let _ = rt.stdin().take(MOST).read_to_end(&mut bytes)?;
    let line = circuit_line(rt.alloc(), bytes.as_slice())?;
    println!(rt; "{line}")?;
    Ok(())
}
