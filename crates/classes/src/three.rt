// The three values 0, 1 and X.
ghost use Rattle.std.specs.Prelude.{◌≡◌, ◌∷◌, [], Some};
ghost use Rattle.classes.specs.Three.{described};

use std::fmt;

// In the order of their numbers. An enum of its own and no `Option<bool>`: X is a value with a number and a letter, and gates
// work on it, where `None` would say that a value is missing.
#[derive(Clone, Copy, PartialEq, Eq, Hash, Debug)]
pub enum Three {
    Zero,
    One,
    Unknown,
}

impl Three {
    pub fn number(self) -> u8
        ensures { result ≡ (described self).number }
    {
        self as u8
    }

    pub fn letter(self) -> char
        ensures { result ≡ (described self).letter }
    {
        match self {
            Three::Zero => '0',
            Three::One => '1',
            Three::Unknown => 'X',
        }
    }
}

impl fmt::Display for Three {
    ghost output = { λ v. Some ((described v).letter ∷ []) };

    fn fmt<W: fmt::Write>(&self, f: &mut fmt::Formatter<W>) -> fmt::Result {
        f.write_char(self.letter())
    }
}
