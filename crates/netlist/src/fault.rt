// Why a circuit file is refused: a record fault inside a circuit fault.
ghost use Rattle.std.specs.Prelude.{◌≡◌, Some};
ghost use Rattle.netlist.specs.Fault.{record_refusal, refusal_of};
ghost use Rattle.netlist.specs.declared.fault.CircuitFault.TheVariants.{Record};
ghost use Rattle.records.specs.declared.fault.RecordFault.{RecordFault as ReaderFault};

use records::RecordFault;
use refusals::{Layer, Refusal};

pub mod convert;

// A fault of the circuit file, with the place of the record that has it. The place stands in the variants: want of memory has none.
#[derive(Clone, Copy, Debug, PartialEq, Eq)]
pub enum CircuitFault {
    Record(RecordFault),
    // the kind is not the one due here
    Kind { place: usize },
    // the payload's size is not one that the record due here has
    Size { place: usize },
    // the head announces too few or too many inputs, or too many gates
    Limits { place: usize },
    // no function has this code
    Code { place: usize },
    // the function does not take this many pins
    PinCount { place: usize },
    // a pin is not lower than the gate's own net
    Pin { place: usize },
    // the least delay is above the greatest
    Delays { place: usize },
    // there was no memory for the circuit
    Memory,
}

impl CircuitFault {
    // The refusal that the fault stands for, or none for want of memory.
    pub fn refusal(self) -> Option<Refusal>
        ensures told { result ≡ refusal_of self }
        ensures reader { (f : ReaderFault) → self ≡ Record f → result ≡ Some (record_refusal f) }
    {
        let (number, place) = match self {
            CircuitFault::Record(fault) => return Some(fault.refusal()),
            CircuitFault::Kind { place } => (4, place),
            CircuitFault::Size { place } => (5, place),
            CircuitFault::Limits { place } => (6, place),
            CircuitFault::Code { place } => (7, place),
            CircuitFault::PinCount { place } => (8, place),
            CircuitFault::Pin { place } => (9, place),
            CircuitFault::Delays { place } => (11, place),
            CircuitFault::Memory => return None,
        };
        Some(Refusal {
            number,
            layer: Layer::Circuit,
            place,
        })
    }
}
