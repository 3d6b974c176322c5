// The thirteen classes of waveforms, named by their letters: start, middle, end.
ghost use Rattle.std.specs.Prelude.{◌≡◌, ◌<◌, Some, MatchResult};
ghost use Rattle.classes.specs.Class.{described, is_clean, is_constant, letters, NoneLettered};

use crate::fault::{UnknownCode, UnknownLetters};
use crate::three::Three;
use std::fmt;
use std::str::FromStr;

// in the order of their codes
#[derive(Clone, Copy, PartialEq, Eq, Hash, Debug, Default)]
pub enum Class {
    C000,
    C111,
    C0R1,
    C1F0,
    C0X0,
    C0X1,
    C1X0,
    C1X1,
    C0XX,
    C1XX,
    CXX0,
    CXX1,
    // every waveform: what a vector of classes with a fixed size is filled with
    #[default]
    CXXX,
}

impl Class {
    pub fn code(self) -> u8
        ensures { result ≡ (described self).code }
    {
        self as u8
    }

    pub fn letters(self) -> &'static str
        ensures { result.now ≡ letters self }
    {
        match self {
            Class::C000 => "000",
            Class::C111 => "111",
            Class::C0R1 => "0R1",
            Class::C1F0 => "1F0",
            Class::C0X0 => "0X0",
            Class::C0X1 => "0X1",
            Class::C1X0 => "1X0",
            Class::C1X1 => "1X1",
            Class::C0XX => "0XX",
            Class::C1XX => "1XX",
            Class::CXX0 => "XX0",
            Class::CXX1 => "XX1",
            Class::CXXX => "XXX",
        }
    }

    // The value before any flip, as far as the class fixes it.
    pub fn start(self) -> Three
        ensures { result ≡ (described self).start }
    {
        match self {
            Class::C000 | Class::C0R1 | Class::C0X0 | Class::C0X1 | Class::C0XX => Three::Zero,
            Class::C111 | Class::C1F0 | Class::C1X0 | Class::C1X1 | Class::C1XX => Three::One,
            Class::CXX0 | Class::CXX1 | Class::CXXX => Three::Unknown,
        }
    }

    // The value after the last flip, as far as the class fixes it.
    pub fn end(self) -> Three
        ensures { result ≡ (described self).finish }
    {
        match self {
            Class::C000 | Class::C1F0 | Class::C0X0 | Class::C1X0 | Class::CXX0 => Three::Zero,
            Class::C111 | Class::C0R1 | Class::C0X1 | Class::C1X1 | Class::CXX1 => Three::One,
            Class::C0XX | Class::C1XX | Class::CXXX => Three::Unknown,
        }
    }

    // Whether its waveforms never flip.
    pub fn is_constant(self) -> bool
        ensures { result ≡ is_constant self }
    {
        matches!(self, Class::C000 | Class::C111)
    }

    // Whether its waveforms flip exactly once.
    pub fn is_clean(self) -> bool
        ensures { result ≡ is_clean self }
    {
        matches!(self, Class::C0R1 | Class::C1F0)
    }
}

// The class of this code; a code above 12 is refused.
impl TryFrom<u8> for Class {
    type Error = UnknownCode;

    ghost try_from_gives = { λ code r. MatchResult r (λ c. (described c).code ≡ code) (λ e. (e.0 ≡ code) × (12 < code)) };

    fn try_from(code: u8) -> Result<Class, UnknownCode> {
        match code {
            0 => Ok(Class::C000),
            1 => Ok(Class::C111),
            2 => Ok(Class::C0R1),
            3 => Ok(Class::C1F0),
            4 => Ok(Class::C0X0),
            5 => Ok(Class::C0X1),
            6 => Ok(Class::C1X0),
            7 => Ok(Class::C1X1),
            8 => Ok(Class::C0XX),
            9 => Ok(Class::C1XX),
            10 => Ok(Class::CXX0),
            11 => Ok(Class::CXX1),
            12 => Ok(Class::CXXX),
            _ => Err(UnknownCode(code)),
        }
    }
}

impl From<Class> for u8 {
    ghost from_gives = { λ c n. n ≡ (described c).code };

    fn from(class: Class) -> u8 {
        class.code()
    }
}

// The class of these three letters; a text is refused exactly if no class has it as its letters.
impl FromStr for Class {
    type Err = UnknownLetters;

    ghost from_str_gives = { λ text r. MatchResult r (λ c. letters c ≡ text) (λ _. NoneLettered text) };

    fn from_str(text: &str) -> Result<Class, UnknownLetters> {
        match text {
            "000" => Ok(Class::C000),
            "111" => Ok(Class::C111),
            "0R1" => Ok(Class::C0R1),
            "1F0" => Ok(Class::C1F0),
            "0X0" => Ok(Class::C0X0),
            "0X1" => Ok(Class::C0X1),
            "1X0" => Ok(Class::C1X0),
            "1X1" => Ok(Class::C1X1),
            "0XX" => Ok(Class::C0XX),
            "1XX" => Ok(Class::C1XX),
            "XX0" => Ok(Class::CXX0),
            "XX1" => Ok(Class::CXX1),
            "XXX" => Ok(Class::CXXX),
            _ => Err(UnknownLetters),
        }
    }
}

impl fmt::Display for Class {
    ghost output = { λ c. Some (letters c) };

    fn fmt<W: fmt::Write>(&self, f: &mut fmt::Formatter<W>) -> fmt::Result {
        f.write_str(self.letters())
    }
}
