// The eight gate functions, by code and by name.
ghost use Rattle.std.specs.Prelude.{◌≡◌, ◌<◌, Some, MatchResult};
ghost use Rattle.functions.specs.Function.{described, takes_pins, NoneNamed};

use crate::fault::{UnknownCode, UnknownName};
use std::fmt;
use std::str::FromStr;

// in the order of their codes
#[derive(Clone, Copy, PartialEq, Eq, Hash, Debug)]
pub enum Function {
    Buf,
    Not,
    And,
    Nand,
    Or,
    Nor,
    Xor,
    Xnor,
}

impl Function {
    pub fn code(self) -> u8
        ensures { result ≡ (described self).code }
    {
        self as u8
    }

    pub fn name(self) -> &'static str
        ensures { result.now ≡ (described self).name }
    {
        match self {
            Function::Buf => "BUF",
            Function::Not => "NOT",
            Function::And => "AND",
            Function::Nand => "NAND",
            Function::Or => "OR",
            Function::Nor => "NOR",
            Function::Xor => "XOR",
            Function::Xnor => "XNOR",
        }
    }

    // For two pins or more, the value of one pin that fixes the output, if there is one.
    pub fn control(self) -> Option<bool>
        ensures { result ≡ (described self).control }
    {
        match self {
            Function::And | Function::Nand => Some(false),
            Function::Or | Function::Nor => Some(true),
            Function::Buf | Function::Not | Function::Xor | Function::Xnor => None,
        }
    }

    // Whether the function may have this many pins: one for BUF and NOT, two to eight for the others.
    pub fn takes_pins(self, pins: usize) -> bool
        ensures { result ≡ takes_pins self pins }
    {
        match self {
            Function::Buf | Function::Not => pins == 1,
            _ => (2..=8).contains(&pins),
        }
    }
}

// The function of this code; a code above 7 is refused.
impl TryFrom<u8> for Function {
    type Error = UnknownCode;

    ghost try_from_gives = { λ code r. MatchResult r (λ f. (described f).code ≡ code) (λ e. (e.0 ≡ code) × (7 < code)) };

    fn try_from(code: u8) -> Result<Function, UnknownCode> {
        match code {
            0 => Ok(Function::Buf),
            1 => Ok(Function::Not),
            2 => Ok(Function::And),
            3 => Ok(Function::Nand),
            4 => Ok(Function::Or),
            5 => Ok(Function::Nor),
            6 => Ok(Function::Xor),
            7 => Ok(Function::Xnor),
            _ => Err(UnknownCode(code)),
        }
    }
}

impl From<Function> for u8 {
    ghost from_gives = { λ f n. n ≡ (described f).code };

    fn from(function: Function) -> u8 {
        function.code()
    }
}

// The function of this name; a text is refused exactly if no function has it as its name.
impl FromStr for Function {
    type Err = UnknownName;

    ghost from_str_gives = { λ text r. MatchResult r (λ f. (described f).name ≡ text) (λ _. NoneNamed text) };

    fn from_str(name: &str) -> Result<Function, UnknownName> {
        match name {
            "BUF" => Ok(Function::Buf),
            "NOT" => Ok(Function::Not),
            "AND" => Ok(Function::And),
            "NAND" => Ok(Function::Nand),
            "OR" => Ok(Function::Or),
            "NOR" => Ok(Function::Nor),
            "XOR" => Ok(Function::Xor),
            "XNOR" => Ok(Function::Xnor),
            _ => Err(UnknownName),
        }
    }
}

impl fmt::Display for Function {
    ghost output = { λ f. Some (described f).name };

    fn fmt<W: fmt::Write>(&self, f: &mut fmt::Formatter<W>) -> fmt::Result {
        f.write_str(self.name())
    }
}
