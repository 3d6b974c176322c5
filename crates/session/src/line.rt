// The lines that a session prints.
ghost use Rattle.std.specs.Prelude.{◌≡◌, IfOk, Some};
ghost use Rattle.session.specs.Line.{accepted_line, line_text, Tells};
ghost use Rattle.netlist.specs.Outcome.{LayoutDetermines, OneOutcome};
ghost use Rattle.netlist.specs.View.{plain};

use netlist::Circuit;
use refusals::Refusal;
use std::alloc::{AllocError, Global};
use std::fmt;

// One line of output. An enum and no Result, since a refusal is printed as a line like the others.
#[derive(Clone, Copy, Debug, PartialEq, Eq)]
pub enum Line {
    // the circuit that was read: its inputs, its gates, and the bytes that it used
    Circuit {
        inputs: u8,
        gates: usize,
        used: usize,
    },
    // why the input was refused
    No(Refusal),
}

impl fmt::Display for Line {
    ghost output = { λ l. Some (line_text l) };

    fn fmt<W: fmt::Write>(&self, f: &mut fmt::Formatter<W>) -> fmt::Result {
        match self {
            Line::Circuit {
                inputs,
                gates,
                used,
            } => write!(f, "circuit {inputs} {gates} {used}"),
            Line::No(refusal) => write!(f, "no {refusal}"),
        }
    }
}

// The line for a circuit that was read.
fn accepted_line(circuit: &Circuit, used: usize) -> Line
    ensures { result ≡ accepted_line (plain circuit.now) used }
{
    Line::Circuit {
        inputs: circuit.inputs(),
        gates: circuit.gate_count(),
        used,
    }
}

// The line for a circuit file: the circuit that it holds, or why it is refused.
pub fn circuit_line(heap: Global, bytes: &[u8]) -> Result<Line, AllocError>
    ensures outcome { IfOk result (λ line. Tells bytes.now line) }
    ensures one { OneOutcome }
    ensures layout { LayoutDetermines }
{
    match Circuit::read(heap, bytes) {
        Ok((circuit, used)) => Ok(accepted_line(&circuit, used)),
        Err(fault) => fault.refusal().map(Line::No).ok_or(AllocError),
    }
}
