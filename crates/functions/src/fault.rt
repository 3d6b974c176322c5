// What is refused where a gate function is looked up.
ghost use Rattle.std.specs.Prelude.{◌++◌, Some, codes, decimal};

use std::error::Error;
use std::fmt;

// a code that no function has; classes have a type of their own for this, since each message names what was looked up
#[derive(Clone, Copy, PartialEq, Eq, Hash, Debug)]
pub struct UnknownCode(pub u8);

// a text that is no function's name; no copy of it is kept, since a look-up never allocates
#[derive(Clone, Copy, PartialEq, Eq, Hash, Debug)]
pub struct UnknownName;

impl fmt::Display for UnknownCode {
    ghost output = { λ e. Some (codes "no gate function has code " ++ decimal e.0) };

    fn fmt<W: fmt::Write>(&self, f: &mut fmt::Formatter<W>) -> fmt::Result {
        write!(f, "no gate function has code {}", self.0)
    }
}

impl fmt::Display for UnknownName {
    ghost output = { λ _. Some (codes "no gate function has this name") };

    fn fmt<W: fmt::Write>(&self, f: &mut fmt::Formatter<W>) -> fmt::Result {
        write!(f, "no gate function has this name")
    }
}

impl Error for UnknownCode {}

impl Error for UnknownName {}
