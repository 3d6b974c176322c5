// Why a separation is refused.
ghost use Rattle.std.specs.Prelude.{◌≡◌};
ghost use Rattle.separations.specs.Fault.{told};

use refusals::{Layer, Refusal};

#[derive(Clone, Copy, Debug, PartialEq, Eq)]
pub enum SeparationFault {
    // An input number above 15.
    NoSuchInput(u8),
    // Separations are not taken here.
    NotTaken,
    // An input against itself, or a spacing out of range.
    Malformed,
    // No times of the inputs meet it and all that are held.
    Contradictory,
}

impl SeparationFault {
    // The refusal that the fault is told as; the place is the input number that was refused, or 0.
    pub fn refusal(self) -> Refusal
        ensures { result ≡ told self }
    {
        let (number, layer, place) = match self {
            SeparationFault::NoSuchInput(input) => (9, Layer::Bench, usize::from(input)),
            SeparationFault::NotTaken => (12, Layer::Source, 0),
            SeparationFault::Malformed => (13, Layer::Source, 0),
            SeparationFault::Contradictory => (14, Layer::Source, 0),
        };
        Refusal {
            number,
            layer,
            place,
        }
    }
}
