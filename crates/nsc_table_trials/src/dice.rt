// Pseudo-random numbers from a seed, by PCG.
ghost use Rattle.std.specs.Prelude.{◌<◌};

use rand_core::utils::NextWord;
use rand_pcg::Pcg32;

// Which of the streams of numbers is taken.
const STREAM: u64 = 1;

/// Numbers that look like chance, and are the same in each run of a seed.
pub fn dice_of(seed: u32) -> Pcg32 {
    Pcg32::new(u64::from(seed), STREAM)
}

/// The next number, below this one.
pub fn below(dice: &mut Pcg32, bound: u32) -> u32
    requires { 0 < bound }
    ensures { result < bound }
{
    dice.next_word() % bound
}
