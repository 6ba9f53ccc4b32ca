//! The numbers of a dump, one by one.

ghost use Rattle.std.specs.Prelude.{◌∷◌, ◌≡◌, ◌≤◌, ◌^◌, [], IfErr, IfOk, List, OnErr, OnOk, length, ℤ};
ghost use Rattle.bd_wide_rank.specs.Rank.{AreDistinct, HaveSame};
ghost use Rattle.bd_wide_rank.specs.Table.{collected, worths};
ghost use Rattle.bd_wide_rank.specs.Worth.{worth_of};

use crate::doubles::Doubles;
use crate::guesses::Guesses;
use crate::others::Others;
use crate::position::Position;
use crate::positioned::positioned;
use crate::table::Table;
use bd_value::NoMemory;
use bd_wide_number::Number;
use std::alloc::Global;
use std::cell::Cell;

/// Numbers on the way to a table. Repeats are dropped whenever there are four times as many as after the last time, so the memory is
/// that of the distinct numbers: 8 bytes for one that a double equals and 32 for any other, 4 more for each if there are both, and a
/// few times that while it grows. Also 8 for each number that was added, or, if that is more than four times, 8 for each distinct one.
#[derive(Drop)]
pub struct Numbers {
    doubles: Doubles,
    others: Others,
    guesses: Guesses,
}

/// There are 2 ^ 30 distinct numbers or more.
#[derive(Clone, Copy, Debug)]
pub struct TooMany;

/// The greatest number of numbers of a table.
const MOST: usize = 0x3FFF_FFFF;

impl Numbers {
    /// No numbers.
    pub fn new(alloc: Global) -> Numbers
        ensures { collected result ≡ [] }
    {
        Numbers {
            doubles: Doubles::new(alloc),
            others: Others::new(alloc),
            guesses: Guesses::new(alloc),
        }
    }

    /// Adds a number.
    ///
    /// # Errors
    /// If memory runs out (`NoMemory`), the numbers are the same as before.
    pub fn push(&mut self, number: Number) -> Result<(), NoMemory>
        ensures ok { OnOk result
            (HaveSame (collected self.new) (worth_of number ∷ collected self.old)) }
        ensures err { OnErr result (HaveSame (collected self.new) (collected self.old)) }
    {
        match positioned(number) {
            Position::Double(key) => {
                self.doubles.push(key)?;
                Ok(())
            }
            Position::Between(number) => {
                self.others.push(number)?;
                Ok(())
            }
        }
    }

    /// The table of the distinct numbers: these, and no others.
    ///
    /// # Errors
    /// `TooMany` if there are 2 ^ 30 or more.
    pub fn into_table(self) -> Result<Table, TooMany>
        ensures ok { IfOk result (λ table. HaveSame (worths table) (collected self)) }
        ensures err { IfErr result (λ _. (all : List ℤ) × AreDistinct all
            × HaveSame all (collected self) × (2 ^ 30 ≤ length all)) }
    {
        let Numbers {
            mut doubles,
            mut others,
            mut guesses,
        } = self;
        doubles.sort();
        others.sort();
        if doubles.keys.len() + others.numbers.len() > MOST {
            return Err(TooMany);
        }
        guesses.note_all(&doubles.keys, &others.numbers);
        Ok(Table {
            doubles,
            others,
            guesses,
            read: Cell::new(0),
        })
    }
}
