// Why a record is not read: a fault of the reader, and the refusal that it is told as.
ghost use Rattle.std.specs.Prelude.{◌≡◌};
ghost use Rattle.records.specs.Fault.{record_refusal};

use refusals::{Layer, Refusal};

// A fault of the reader.
#[derive(Clone, Copy, Debug, PartialEq, Eq)]
pub enum RecordFault {
    // the record at this place is cut short, in its four head bytes or in its payload
    CutShort { place: usize },
}

impl RecordFault {
    pub fn refusal(self) -> Refusal
        ensures { result ≡ record_refusal self }
    {
        let RecordFault::CutShort { place } = self;
        Refusal {
            number: 3,
            layer: Layer::Reader,
            place,
        }
    }
}
