//! The distinct numbers of a dump, and the code of any number among them.

ghost use Rattle.std.specs.Prelude.{◌+◌, ◌<◌, ◌≡◌, ◌≤◌, ◌^◌, FitsSigned, IfOk, IfSome, length, map, ℤ};
ghost use Rattle.std.specs.List.{HoldsAt};
ghost use Rattle.std.specs.Int.{w32};
ghost use Rattle.std.specs.List.Sorted.{IsStrictlyIncreasing, IsStrictlySortedBy};
ghost use Rattle.std.proofs.Props.{props};
ghost use Rattle.bd_wide.specs.Rewritten.{least};
ghost use Rattle.bd_wide_number.specs.Value.{nan};
ghost use Rattle.bd_wide_rank.specs.Rank.{AreDistinct, code as code_of, rank};
ghost use Rattle.bd_wide_rank.specs.Worth.{value_worth, worth, worth_of};
ghost use Rattle.bd_wide_rank.specs.inside.Rows.{between_cmp};

use crate::between::Between;
use crate::doubles::Doubles;
use crate::guesses::Guesses;
use crate::others::Others;
use crate::position::{Position, is_nan};
use crate::positioned::positioned;
use bd_bson_view::ElementType;
use bd_value::NoMemory;
use bd_wide::number_in;
use bd_wide_number::Number;
use std::alloc::Global;
use std::cell::Cell;

/// The distinct numbers of a dump: fewer than 2 ^ 30.
#[derive(Drop)]
pub struct Table {
    pub(crate) doubles: Doubles,
    pub(crate) others: Others,
    pub(crate) guesses: Guesses,
    /// What was read ahead.
    pub(crate) read: Cell<u64>,
    ghost rising: { IsStrictlyIncreasing doubles.keys.items } by { Prim.hlevel props },
    ghost sorted: { IsStrictlySortedBy between_cmp others.numbers.items } by { Prim.hlevel props },
    ghost fits: { length doubles.keys.items + length others.numbers.items < 2 ^ 30 },
}

impl Table {
    ghost use Rattle.bd_wide_rank.specs.Table.{worths};
    ghost use Rattle.bd_wide_rank.specs.Key.{key_worth};
    ghost use Rattle.bd_wide_rank.specs.Rows.{between_worth};
    ghost use Rattle.bd_wide_rank.specs.inside.Key.{IsKey};
    ghost use Rattle.bd_wide_rank.specs.inside.Position.{IsPosition, position_worth};

    /// The code of a number, of any type: 2n + 1 for the n-th number of the table from 0, the even number between for a number that
    /// is not in the table, and -1 for NaN if it is not in the table. Fastest in the order in which the numbers were added.
    pub fn code(&self, number: Number) -> i32
        ensures { result ≡ code_of (worths self.now) (worth_of number) }
    {
        self.code_at(self.position(number))
    }

    /// The position of a number, by a guess at a decimal128 of the table.
    fn position(&self, number: Number) -> Position
        ensures is { IsPosition result }
        ensures worth { position_worth result ≡ worth_of number }
    {
        let Number::Decimal128(..) = number else {
            return positioned(number);
        };
        match self.others.peek(number) {
            Some(i) => Position::Between(self.others.numbers[i]),
            None => positioned(number),
        }
    }

    /// The code of a number, by its position.
    fn code_at(&self, position: Position) -> i32
        requires { IsPosition position }
        ensures { result ≡ code_of (worths self.now) (position_worth position) }
    {
        let rank = self.rank(position);
        if rank == 0 && is_nan(position) {
            -1
        } else {
            rank as i32
        }
    }

    /// The code of a number, by its type and the bytes of its value; of any other value that of 0.
    pub fn code_of_value(&self, typed: ElementType, value: &[u8]) -> i32
        requires { least typed ≤ length value.now }
        ensures { result ≡ code_of (worths self.now) (worth typed value.now) }
    {
        match number_in(typed, value) {
            Some(number) => self.code(number),
            None => self.code(Number::Whole(0)),
        }
    }

    /// The codes of the numbers of the table: first of those that are doubles.
    ///
    /// # Errors
    /// `NoMemory` if memory runs out.
    pub fn codes(&self, alloc: Global) -> Result<Vec<i32>, NoMemory>
        ensures { IfOk result
            (λ codes. codes.items ≡ map (code_of (worths self.now)) (worths self.now)) }
    {
        let mut codes = Vec::new(alloc);
        for key in &self.doubles.keys {
            codes.push(self.code_at(Position::Double(*key)))?;
        }
        for number in &self.others.numbers {
            codes.push(self.code_at(Position::Between(*number)))?;
        }
        Ok(codes)
    }

    /// The rank of a number, by its position.
    fn rank(&self, position: Position) -> u64
        requires { IsPosition position }
        ensures is { result ≡ rank (worths self.now) (position_worth position) }
        ensures fits_i32 { result < 2 ^ 31 }
    {
        match position {
            Position::Double(key) => {
                let index = self.doubles.find(key);
                self.rank_of_double(key, index)
            }
            Position::Between(number) => {
                let index = self.others.find(number.number);
                self.rank_of_other(number, index)
            }
        }
    }

    /// The rank of a double, by its index among the doubles if that is known.
    fn rank_of_double(&self, key: u64, index: Option<usize>) -> u64
        requires key { IsKey key }
        requires index { IfSome index (λ i. (i < length self.now.doubles.keys.items)
            × HoldsAt (λ k. k ≡ key) self.now.doubles.keys.items i) }
        ensures is { result ≡ rank (worths self.now) (key_worth key) }
        ensures fits_i32 { result < 2 ^ 31 }
    {
        self.read_doubles();
        let guess = self.guesses.of_double(index);
        self.doubles.rank(key, index) + self.others.rank_of_double(key, guess)
    }

    /// The rank of a number that no double equals, by its index among those if that is known.
    fn rank_of_other(&self, number: Between, index: Option<usize>) -> u64
        requires { IfSome index (λ i. (i < length self.now.others.numbers.items)
            × HoldsAt (λ b. b.number ≡ number.number) self.now.others.numbers.items i) }
        ensures is { result ≡ rank (worths self.now) (between_worth number) }
        ensures fits_i32 { result < 2 ^ 31 }
    {
        self.read_others();
        let guess = self.guesses.of_other(index);
        self.doubles.rank_between(number, guess) + self.others.rank(number, index)
    }

    /// Reads now and then what the look-ups of the next doubles read: memory gives all of it in the time of one.
    fn read_doubles(&self) {
        for guess in self.doubles.ahead() {
            let index = *guess as usize;
            let other = self.guesses.of_double(Some(index));
            self.note_read(self.doubles.key_at(index), self.others.key_at(other));
        }
    }

    /// The same for the next numbers that no double equals.
    fn read_others(&self) {
        for guess in self.others.ahead() {
            let index = *guess as usize;
            let double = self.guesses.of_other(Some(index));
            self.note_read(self.others.key_at(index), self.doubles.key_at(double));
        }
    }

    /// Notes that two keys were read, so that they are.
    fn note_read(&self, first: u64, second: u64) {
        self.read.set(self.read.get() ^ first ^ second);
    }

    /// How many numbers are in the table.
    pub fn len(&self) -> usize
        ensures { result ≡ length (worths self.now) }
    {
        self.doubles.keys.len() + self.others.numbers.len()
    }

    /// A law: the numbers of the table are distinct, and fewer than 2 ^ 30. The code of each number is an int32.
    pub fn codes_fit(&self)
        ensures distinct { AreDistinct (worths self.now) }
        ensures fits_i32 { length (worths self.now) < 2 ^ 30 }
        ensures fit { (w : ℤ) → FitsSigned w32 (code_of (worths self.now) w) }
    {}

    /// A law: no other number has the code of NaN.
    pub fn nan_has_its_code_alone(&self)
        ensures { let table = worths self.now in (w : ℤ) →
            code_of table w ≡ code_of table (value_worth nan) → w ≡ value_worth nan }
    {}
}
