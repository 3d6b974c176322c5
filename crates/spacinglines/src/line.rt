// Reading a line as two inputs and a spacing.
ghost use Rattle.spacinglines.specs.Line.{Reads};

use crate::fault::LineFault;
use std::str::FromStr;
use words::Words;

// The separation of inputs a and b by s ticks, as a line gives it.
#[derive(Clone, Copy)]
pub struct Line {
    pub a: u8,
    pub b: u8,
    pub s: i32,
}

impl FromStr for Line {
    type Err = LineFault;

    ghost from_str_gives = { Reads };

    // The two inputs and the spacing that the text writes, or what is wrong with it. The words are decimal numbers with
    // spaces between them; a sign may stand before their digits, at the inputs only a plus.
    fn from_str(text: &str) -> Result<Line, LineFault> {
        let mut words = Words::new(text);
        let (Some(first), Some(second), Some(third), None) = (
            words.next(),
            words.next(),
            words.next(),
            words.next(),
        ) else {
            return Err(LineFault::NotThree);
        };
        let a = first.parse().map_err(|_| LineFault::First)?;
        let b = second.parse().map_err(|_| LineFault::Second)?;
        let s = third.parse().map_err(|_| LineFault::Third)?;
        Ok(Line { a, b, s })
    }
}
