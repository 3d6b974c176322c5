// A refusal and the layers that refuse, each with its text.
ghost use Rattle.std.specs.Prelude.{◌≡◌, [], ◌∷◌, Some};
ghost use Rattle.refusals.specs.Layer.{letter};
ghost use Rattle.refusals.specs.Refusal.{refusal_text};

use std::fmt;

// The layer that finds a fault, printed as one letter.
#[derive(Clone, Copy, Debug, PartialEq, Eq)]
pub enum Layer {
    // the reader of records
    Reader,
    // the circuit above the reader
    Circuit,
    // the bench that takes the calls
    Bench,
    // the order source
    Source,
}

impl Layer {
    pub fn letter(self) -> char
        ensures { result ≡ letter self }
    {
        match self {
            Layer::Reader => 'R',
            Layer::Circuit => 'C',
            Layer::Bench => 'B',
            Layer::Source => 'S',
        }
    }
}

impl fmt::Display for Layer {
    ghost output = { λ l. Some (letter l ∷ []) };

    fn fmt<W: fmt::Write>(&self, f: &mut fmt::Formatter<W>) -> fmt::Result {
        f.write_char(self.letter())
    }
}

// A refusal: its number, the layer that found the fault, and the place of it.
// The number stays a number: a reason is a variant of its layer's fault already, and two of them share the number 9.
#[derive(Clone, Copy, Debug, PartialEq, Eq)]
pub struct Refusal {
    pub number: u8,
    pub layer: Layer,
    pub place: usize,
}

impl fmt::Display for Refusal {
    ghost output = { λ r. Some (refusal_text r) };

    fn fmt<W: fmt::Write>(&self, f: &mut fmt::Formatter<W>) -> fmt::Result {
        let Refusal {
            number,
            layer,
            place,
        } = self;
        write!(f, "{number} {layer} {place}")
    }
}
