//! The random words of a story (Glulx 3.1.2, "Random Number Generator").
//!
//! The words come from outside, each handed in, until the story seeds its own generator; from then
//! on they are those of a Pcg32, the same in every run.
ghost use Rattle.std.specs.Prelude.{◌≡◌, ◌==◌, if◌then◌else◌, Ok};
ghost use Rattle.ops_calc.specs.Generator.{pcg32_of, is_outside, word_from, after_word, pick};
ghost use Rattle.ops_calc.specs.Laws.{IsPicked};

use rand_core::SeedableRng;
use rand_core::utils::NextWord;
use rand_pcg::Pcg32;
use std::alloc::AllocError;

/// Where the words come from.
#[derive(Drop)]
pub enum Generator {
    /// From outside: each is handed in.
    Outside,
    /// From a seed.
    Seeded(Pcg32),
}

impl Generator {
    /// The generator of a story that has set no seed.
    pub fn fresh() -> Generator
        ensures { result ≡ Generator.Outside }
    {
        Generator::Outside
    }

    /// Starts the words of the seed `v`; 0 goes back to those from outside.
    pub fn seed(&mut self, v: u32)
        ensures { self.new ≡ (if v == 0 then Generator.Outside else Generator.Seeded (pcg32_of v)) }
    {
        *self = if v == 0 {
            Generator::Outside
        } else {
            Generator::Seeded(Pcg32::seed_from_u64(u64::from(v)))
        };
    }

    /// Whether the next word is one that is handed in.
    pub fn is_outside(&self) -> bool
        ensures { result ≡ is_outside self.now }
    {
        matches!(self, Generator::Outside)
    }

    /// The next word; `outside` is the one to be used where words come from outside.
    pub fn word(&mut self, outside: u32) -> u32
        ensures value { result ≡ word_from self.old outside }
        ensures rest { self.new ≡ after_word self.old }
    {
        match self {
            Generator::Outside => outside,
            Generator::Seeded(pcg) => pcg.next_word(),
        }
    }

    /// An equal generator, which takes no memory.
    pub fn copy(&self) -> Result<Generator, AllocError>
        ensures { result ≡ Ok self.now }
    {
        match self {
            Generator::Outside => Ok(Generator::Outside),
            Generator::Seeded(pcg) => Ok(Generator::Seeded(pcg.clone()?)),
        }
    }
}

/// What the instruction `random` makes of a word.
///
/// For a limit of 0 it is the word, for a positive limit it goes from 0 to the limit less one, and
/// for a negative one, read as two's complement, from the limit and one to 0.
#[tactic(auto, unfolding(crate::specs::Generator::pick))]
pub fn pick(limit: u32, word: u32) -> u32
    ensures value { result ≡ pick limit word }
    ensures range { IsPicked limit result }
{
    if limit == 0 {
        word
    } else if limit < 0x8000_0000 {
        word % limit
    } else {
        (word % limit.wrapping_neg()).wrapping_neg()
    }
}
