//! Guesses at the indexes of numbers in a row.

use std::alloc::Global;

/// Guesses at the indexes of the numbers of a row, by a hash of each. Nothing rests on them: a number that no guess finds is searched.
#[derive(Drop)]
pub(crate) struct Hints {
    /// The index of a number is in one of `TRIES` slots, from that of its hash on.
    indexes: Vec<u32>,
}

/// No index: the slot is free.
const FREE: u32 = u32::MAX;

/// How many slots are tried for a number.
pub(crate) const TRIES: usize = 16;

/// 2 ^ 64 over the golden ratio: products with it are far apart.
const SPREAD: u64 = 0x9E37_79B9_7F4A_7C15;

/// The slot of a hash, of that many.
fn slot(hash: u64, slots: usize) -> usize {
    let spread = hash.wrapping_mul(SPREAD);
    (spread as u128 * slots as u128 / 0x0001_0000_0000_0000_0000) as usize
}

impl Hints {
    /// No guesses.
    pub(crate) fn new(alloc: Global) -> Hints {
        Hints {
            indexes: Vec::new(alloc),
        }
    }

    /// A guess at the index of the number with a hash, after that many wrong ones.
    pub(crate) fn guess(&self, hash: u64, tried: usize) -> Option<usize> {
        let slot = slot(hash, self.indexes.len()).saturating_add(tried);
        Some(*self.indexes.get(slot)? as usize)
    }

    /// Drops all guesses, and has slots for those of a row. If memory runs out, there are none.
    pub(crate) fn renew(&mut self, numbers: usize) {
        self.indexes.clear();
        let _full = self
            .indexes
            .resize(numbers.saturating_mul(2), FREE)
            .is_err();
    }

    /// Notes the index of the number with a hash, if a slot for it is free.
    pub(crate) fn note(&mut self, hash: u64, index: usize) {
        let start = slot(hash, self.indexes.len());
        for tried in 0..TRIES {
            let at = start.saturating_add(tried);
            if at >= self.indexes.len() {
                return;
            }
            if self.indexes[at] == FREE {
                self.indexes[at] = index.min(FREE as usize) as u32;
                return;
            }
        }
    }
}
