//! The words of a seed.
ghost use Rattle.std.specs.Prelude.{◌≡◌, IfOk};
ghost use Rattle.draw_core.specs.Words.{seeded, words_of};

use rand_core::utils::NextWord;
use rand_pcg::Pcg32;
use std::alloc::{AllocError, Global};

/// The stream of the generator. Every draw takes the same.
const STREAM: u64 = 1;

/// The generator that a seed starts.
pub fn seeded(seed: u64) -> Pcg32
    ensures { result ≡ seeded seed }
{
    Pcg32::new(seed, STREAM)
}

/// The first `count` words of a seed.
pub fn draw_words(alloc: Global, seed: u64, count: u32) -> Result<Vec<u32>, AllocError>
    ensures { IfOk result (λ words. words.items ≡ words_of (seeded seed) count) }
{
    let mut generator = seeded(seed);
    let mut words = Vec::new(alloc);
    for _ in 0..count {
        words.push(generator.next_word())?;
    }
    Ok(words)
}
