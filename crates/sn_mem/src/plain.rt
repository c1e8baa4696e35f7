//! A port over a vector, which may touch everything.
ghost use Rattle.std.specs.Prelude.{◌≡◌, ◌<◌, replicate, IfOk};

use crate::port::Port;
use sn_ports::NoMemory;
use std::alloc::Global;

/// Words of one owner. Its foot is everything.
#[derive(Drop)]
pub struct PlainPort {
    words: Vec<u64>,
}

impl PlainPort {
    /// This many words, all 0.
    pub fn new(alloc: Global, words: u32) -> Result<PlainPort, NoMemory>
        ensures { IfOk result (λ p. p.words.items ≡ replicate words 0) }
    {
        let words = vec![in alloc; 0u64; words as usize]?;
        Ok(PlainPort { words })
    }
}

impl Port for PlainPort {
    ghost use Rattle.sn_mem.specs.Words.{everything, everything_is};
    ghost use Rattle.std.specs.Prelude.{length};

    type Rest = ();

    ghost words = { λ p. p.words.items };

    ghost foot = { λ p. everything (length p.words.items) };

    ghost rest = { λ _. tt };

    fn load(&mut self, at: u32) -> u64 {
        self.words[at as usize]
    }

    fn store(&mut self, at: u32, value: u64) {
        self.words[at as usize] = value;
    }

    ghost inside = { λ p x t. everything_is (length p.words.items) x t };
}
