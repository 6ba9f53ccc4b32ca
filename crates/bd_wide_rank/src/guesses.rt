//! Guesses at the indexes of the numbers of each row of a table in the other row.

use crate::between::Between;
use bd_value::NoMemory;
use std::alloc::Global;

/// For each number, how many numbers of the other row are less. Nothing rests on them: an index that is wrong is searched.
#[derive(Drop)]
pub(crate) struct Guesses {
    of_doubles: Vec<u32>,
    of_others: Vec<u32>,
}

impl Guesses {
    /// No guesses.
    pub(crate) fn new(alloc: Global) -> Guesses {
        Guesses {
            of_doubles: Vec::new(alloc),
            of_others: Vec::new(alloc),
        }
    }

    /// A guess at the index of a double among the other numbers, by its own index.
    pub(crate) fn of_double(&self, index: Option<usize>) -> usize {
        at(&self.of_doubles, index)
    }

    /// A guess at the index of a number that no double equals among the doubles, by its own index.
    pub(crate) fn of_other(&self, index: Option<usize>) -> usize {
        at(&self.of_others, index)
    }

    /// Notes the indexes of the numbers of two rows in order. If memory runs out, some have none.
    pub(crate) fn note_all(&mut self, keys: &[u64], numbers: &[Between]) {
        if keys.is_empty() || numbers.is_empty() {
            return;
        }
        for _ in 0..keys.len().saturating_add(numbers.len()) {
            if self.note_next(keys, numbers).is_err() {
                return;
            }
        }
    }

    /// Notes the index of the least number that has none yet.
    fn note_next(&mut self, keys: &[u64], numbers: &[Between]) -> Result<(), NoMemory> {
        let doubles = self.of_doubles.len();
        let others = self.of_others.len();
        if comes_first(numbers.get(others), keys.get(doubles)) {
            self.of_others.push(short(doubles))?;
        } else {
            self.of_doubles.push(short(others))?;
        }
        Ok(())
    }
}

/// Whether a number that no double equals comes before a double, if there are both.
fn comes_first(number: Option<&Between>, key: Option<&u64>) -> bool {
    match (number, key) {
        (Some(number), Some(key)) => number.key < *key,
        (Some(_), None) => true,
        (None, _) => false,
    }
}

/// An index as 32 bits.
fn short(index: usize) -> u32 {
    index.min(u32::MAX as usize) as u32
}

/// The guess for a number, by its own index.
fn at(guesses: &[u32], index: Option<usize>) -> usize {
    match index {
        Some(index) => guesses.get(index).map_or(0, |guess| *guess as usize),
        None => 0,
    }
}
