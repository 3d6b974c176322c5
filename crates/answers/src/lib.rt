// What a program that answers each line of its input prints for one of them.
#![tactic(auto)]

ghost use Rattle.answers.specs.Text.{answer_text};

use std::fmt;
use std::fmt::Display;

// The answer to the line of this number, or what is wrong with the line.
#[derive(Drop)]
pub struct Answer<T, E> {
    pub number: u64,
    pub outcome: Result<T, E>,
}

impl<T: Display, E: Display> Display for Answer<T, E> {
    ghost output = { λ a. answer_text T.output E.output a.number a.outcome };

    fn fmt<W: fmt::Write>(&self, f: &mut fmt::Formatter<W>) -> fmt::Result {
        let number = self.number;
        match &self.outcome {
            Ok(value) => write!(f, "{value}"),
            Err(fault) => write!(f, "line {number}: {fault}"),
        }
    }
}
