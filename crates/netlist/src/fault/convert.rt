// A fault of a lower layer inside a circuit fault, as `?` passes it on.
// Written out and not derived, since the proofs of reading need to know which fault `?` makes.
ghost use Rattle.std.specs.Prelude.{◌≡◌};
ghost use Rattle.netlist.specs.declared.fault.CircuitFault.TheVariants.{Record, Memory};

use crate::fault::CircuitFault;
use records::RecordFault;
use std::alloc::{AllocError, AllocFailed};

impl From<RecordFault> for CircuitFault {
    ghost from_gives = { λ e r. r ≡ Record e };

    fn from(e: RecordFault) -> CircuitFault {
        CircuitFault::Record(e)
    }
}

impl From<AllocError> for CircuitFault {
    ghost from_gives = { λ e r. r ≡ Memory };

    fn from(_e: AllocError) -> CircuitFault {
        CircuitFault::Memory
    }
}

impl<T: Drop> From<AllocFailed<T>> for CircuitFault {
    ghost from_gives = { λ e r. r ≡ Memory };

    fn from(_e: AllocFailed<T>) -> CircuitFault {
        CircuitFault::from(AllocError)
    }
}
