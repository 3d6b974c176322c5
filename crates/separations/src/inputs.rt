// The numbers of inputs.
ghost use Rattle.std.specs.Prelude.{◌≡◌, ◌<◌, ◌≤◌, MatchResult};
ghost use Rattle.separations.specs.declared.fault.SeparationFault.TheVariants as fault;

use crate::fault::SeparationFault;

// How many inputs a circuit may have. The number stands here once more, since this crate knows of no circuits.
pub(crate) const INPUTS: usize = 16;

// The number, if it is an input's.
pub fn input(number: u8) -> Result<u8, SeparationFault>
    ensures { MatchResult result (λ n. (n ≡ number) × (number ≤ 15)) (λ e. (e ≡ fault.NoSuchInput number) × (15 < number)) }
{
    if usize::from(number) < INPUTS {
        Ok(number)
    } else {
        Err(SeparationFault::NoSuchInput(number))
    }
}
