// What is wrong with a line that is no separation.
ghost use Rattle.std.specs.Prelude.{◌≡◌, Some};
ghost use Rattle.spacinglines.specs.Fault.{fault_text};

use std::error::Error;
use std::fmt;

#[derive(Clone, Copy, PartialEq, Eq, Debug)]
pub enum LineFault {
    // more or fewer words than three
    NotThree,
    // the first word is no number of one byte
    First,
    // the second word is no number of one byte
    Second,
    // the third word is no signed number of four bytes
    Third,
}

impl LineFault {
    pub fn text(self) -> &'static str
        ensures { result.now ≡ fault_text self }
    {
        match self {
            LineFault::NotThree => "not three numbers",
            LineFault::First => "the first is no number of one byte",
            LineFault::Second => "the second is no number of one byte",
            LineFault::Third => "the third is no signed number of four bytes",
        }
    }
}

// Written by hand: what the derive of `thiserror` writes states no output, and the text of each fault is proved.
impl fmt::Display for LineFault {
    ghost output = { λ e. Some (fault_text e) };

    fn fmt<W: fmt::Write>(&self, f: &mut fmt::Formatter<W>) -> fmt::Result {
        let text = self.text();
        write!(f, "{text}")
    }
}

impl Error for LineFault {}
