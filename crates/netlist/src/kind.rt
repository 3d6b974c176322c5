// The kinds of records in a file.
ghost use Rattle.netlist.specs.Kind.{Decodes};

// A kind of record, by the number that a file has for it.
#[derive(Clone, Copy, Debug, PartialEq, Eq)]
pub enum Kind {
    Head,
    Gate,
}

// A number that no kind has.
#[derive(Clone, Copy, Debug, PartialEq, Eq)]
pub struct UnknownKind(pub u16);

impl TryFrom<u16> for Kind {
    type Error = UnknownKind;

    ghost try_from_gives = { Decodes };

    fn try_from(number: u16) -> Result<Kind, UnknownKind> {
        match number {
            1 => Ok(Kind::Head),
            2 => Ok(Kind::Gate),
            _ => Err(UnknownKind(number)),
        }
    }
}
