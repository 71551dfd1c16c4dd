// A number that threads share, and the wait for it.
use plan_terms::Memory;
use std::alloc::Global;
use std::hint::spin_loop;
use std::sync::Arc;
use std::sync::atomic::{AtomicU64, Ordering};

// How often a wait looks, until it is in vain.
pub const LOOKS: u32 = 1_000_000_000;

/// A number that threads share, from 0 on.
#[derive(Drop)]
pub struct Word {
    number: Arc<AtomicU64, Global>,
}

impl Word {
    pub fn new(alloc: Global) -> Result<Word, Memory> {
        Ok(Word {
            number: Arc::new(alloc, AtomicU64::new(0))?,
        })
    }

    /// The same word, for another thread.
    pub fn share(&self) -> Result<Word, Memory> {
        Ok(Word {
            number: Arc::try_clone(&self.number)?,
        })
    }

    /// Writes the number.
    pub fn tell(&self, number: u64) {
        self.number.store(number, Ordering::SeqCst);
    }
}

/// What bars the way until a word has reached a number.
#[derive(Drop)]
pub struct Bar {
    word: Word,
    least: u64,
    looks: u32,
}

impl Bar {
    /// A bar that waits for this number, and looks at the word so often at most.
    pub fn new(word: Word, least: u64, looks: u32) -> Bar {
        Bar { word, least, looks }
    }

    /// A bar that never waits.
    pub fn lifted(alloc: Global) -> Result<Bar, Memory> {
        Ok(Bar::new(Word::new(alloc)?, 0, 1))
    }

    /// Waits, and answers whether the word has reached the number.
    pub fn lifts(&self) -> bool {
        for _ in 0..self.looks {
            if self.word.number.load(Ordering::SeqCst) >= self.least {
                return true;
            }
            spin_loop();
        }
        false
    }
}
