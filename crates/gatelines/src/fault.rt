// What is wrong with a line that describes no gate.
ghost use Rattle.std.specs.Prelude.{◌≡◌, Some};
ghost use Rattle.gatelines.specs.Fault.{fault_text};

use std::error::Error;
use std::fmt;

#[derive(Clone, Copy, PartialEq, Eq, Debug)]
pub enum LineFault {
    // the first word is no gate function, or there is no word
    UnknownFunction,
    // some other word is no class
    UnknownClass,
    TooFewPins,
    TooManyPins,
}

impl LineFault {
    pub fn text(self) -> &'static str
        ensures { result.now ≡ fault_text self }
    {
        match self {
            LineFault::UnknownFunction => "unknown function",
            LineFault::UnknownClass => "unknown class",
            LineFault::TooFewPins => "too few pins",
            LineFault::TooManyPins => "too many pins",
        }
    }
}

// Written by hand: what the derive of `thiserror` writes states no output, and the text of each fault is proved.
impl fmt::Display for LineFault {
    ghost output = { λ e. Some (fault_text e) };

    fn fmt<W: fmt::Write>(&self, f: &mut fmt::Formatter<W>) -> fmt::Result {
        let text = self.text();
        write!(f, "{text}")
    }
}

impl Error for LineFault {}
