// What is refused where a class is looked up.
ghost use Rattle.std.specs.Prelude.{◌++◌, Some, codes, decimal};

use std::error::Error;
use std::fmt;

// a code that no class has; functions have a type of their own for this, since each message names what was looked up
#[derive(Clone, Copy, PartialEq, Eq, Hash, Debug)]
pub struct UnknownCode(pub u8);

// a text that is no class's letters; no copy of it is kept, since a look-up never allocates
#[derive(Clone, Copy, PartialEq, Eq, Hash, Debug)]
pub struct UnknownLetters;

impl fmt::Display for UnknownCode {
    ghost output = { λ e. Some (codes "no class has code " ++ decimal e.0) };

    fn fmt<W: fmt::Write>(&self, f: &mut fmt::Formatter<W>) -> fmt::Result {
        write!(f, "no class has code {}", self.0)
    }
}

impl fmt::Display for UnknownLetters {
    ghost output = { λ _. Some (codes "no class has these letters") };

    fn fmt<W: fmt::Write>(&self, f: &mut fmt::Formatter<W>) -> fmt::Result {
        write!(f, "no class has these letters")
    }
}

impl Error for UnknownCode {}

impl Error for UnknownLetters {}
