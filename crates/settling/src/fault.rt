// Why a class for an input is refused.
ghost use Rattle.std.specs.Prelude.{Some};
ghost use Rattle.settling.specs.Fault.{fault_text};

use netlist::Net;
use std::error::Error;
use std::fmt;

// no input has this number
#[derive(Clone, Copy, PartialEq, Eq, Debug)]
pub struct NoSuchInput {
    pub input: Net,
}

impl fmt::Display for NoSuchInput {
    ghost output = { λ e. Some (fault_text e) };

    fn fmt<W: fmt::Write>(&self, f: &mut fmt::Formatter<W>) -> fmt::Result {
        let input = self.input;
        write!(f, "no input has the number {input}")
    }
}

impl Error for NoSuchInput {}
