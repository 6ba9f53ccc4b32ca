//! Numbers that no double equals.

ghost use Rattle.std.specs.Prelude.{◌∷◌, ◌≡◌, ◌<◌, ◌≤◌, ◌-◌, ◌*◌, [], IfSome, OnErr, OnOk, length, true};
ghost use Rattle.std.specs.List.{HoldsAt};
ghost use Rattle.std.specs.List.Sorted.{IsStrictlySortedBy};
ghost use Rattle.bd_wide_rank.specs.Rank.{HaveSame, rank};

use crate::between::Between;
use crate::hints::{Hints, TRIES};
use crate::order::Order;
use crate::position::{Position, beside, compare_between};
use bd_value::NoMemory;
use bd_wide_number::Number;
use std::alloc::Global;

/// Numbers that no double equals, some of them more than once.
#[derive(Drop)]
pub(crate) struct Others {
    pub numbers: Vec<Between>,
    /// Where the numbers are, once they are sorted: in the order in which they were added, or by hints.
    order: Order,
    hints: Hints,
    /// If there are this many, repeats are dropped before the next one.
    limit: usize,
}

/// Fewer are not sorted.
const LEAST_LIMIT: usize = 1024;

impl Others {
    ghost use Rattle.bd_wide_rank.specs.inside.Position.{IsPosition, position_worth};
    ghost use Rattle.bd_wide_rank.specs.Key.{key_worth};
    ghost use Rattle.bd_wide_rank.specs.inside.Key.{IsKey};
    ghost use Rattle.bd_wide_rank.specs.Rows.{between_worth, between_worths};
    ghost use Rattle.bd_wide_rank.specs.inside.Rows.{between_cmp};

    /// No numbers.
    pub(crate) fn new(alloc: Global) -> Others
        ensures { result.numbers.items ≡ [] }
    {
        Others {
            numbers: Vec::new(alloc),
            order: Order::new(alloc),
            hints: Hints::new(alloc),
            limit: LEAST_LIMIT,
        }
    }

    /// Adds a number.
    pub(crate) fn push(&mut self, number: Between) -> Result<(), NoMemory>
        ensures ok { OnOk result (HaveSame (between_worths self.new.numbers.items)
            (between_worth number ∷ between_worths self.old.numbers.items)) }
        ensures err { OnErr result (HaveSame (between_worths self.new.numbers.items)
            (between_worths self.old.numbers.items)) }
    {
        if self.numbers.len() >= self.limit {
            self.drop_repeats();
        }
        self.numbers.push(number)?;
        self.order.add(number.key);
        Ok(())
    }

    /// Sorts the numbers and drops repeats, so that each is found fast.
    pub(crate) fn sort(&mut self)
        ensures same { HaveSame (between_worths self.new.numbers.items)
            (between_worths self.old.numbers.items) }
        ensures rising { IsStrictlySortedBy between_cmp self.new.numbers.items }
    {
        self.drop_repeats();
        let alloc = *self.numbers.allocator();
        note_order(alloc, &mut self.order, &self.numbers);
        if !self.order.is_kept() {
            note_all(&mut self.hints, &self.numbers);
        }
    }

    /// Sorts the numbers, and drops repeats.
    fn drop_repeats(&mut self)
        ensures same { HaveSame (between_worths self.new.numbers.items)
            (between_worths self.old.numbers.items) }
        ensures rising { IsStrictlySortedBy between_cmp self.new.numbers.items }
    {
        self.numbers
            .sort_unstable_by(|a, b| compare_between(*a, *b));
        self.numbers
            .dedup_by(|next, last| compare_between(*next, *last).is_eq());
        self.order.drop_if_few(self.numbers.len());
        self.limit = self.numbers.len().saturating_mul(4).max(LEAST_LIMIT);
    }

    /// The index of a number of the same bits, if a guess finds it: fast in the order in which the numbers were added.
    pub(crate) fn find(&self, number: Number) -> Option<usize>
        ensures { IfSome result (λ i. (i < length self.now.numbers.items)
            × HoldsAt (λ b. b.number ≡ number) self.now.numbers.items i) }
    {
        let Some(index) = self.next_in_order(number) else {
            return self.hinted(number);
        };
        self.order.advance();
        Some(index)
    }

    /// The same of a number that is then looked up by `find`.
    pub(crate) fn peek(&self, number: Number) -> Option<usize>
        ensures { IfSome result (λ i. (i < length self.now.numbers.items)
            × HoldsAt (λ b. b.number ≡ number) self.now.numbers.items i) }
    {
        let Some(index) = self.next_in_order(number) else {
            return self.hinted(number);
        };
        Some(index)
    }

    /// The index of a number of the same bits, if it is the next one in the order in which they were added.
    fn next_in_order(&self, number: Number) -> Option<usize>
        ensures { IfSome result (λ i. (i < length self.now.numbers.items)
            × HoldsAt (λ b. b.number ≡ number) self.now.numbers.items i) }
    {
        let first = self.order.guess()?;
        let key = self.numbers.get(first)?.key;
        for tried in 0..TRIES {
            let index = first.saturating_add(tried);
            let other = self.numbers.get(index)?;
            if is_same(other.number, number) {
                return Some(index);
            }
            if other.key != key {
                return None;
            }
        }
        None
    }

    /// The index of a number of the same bits, if a hint finds it.
    fn hinted(&self, number: Number) -> Option<usize>
        ensures { IfSome result (λ i. (i < length self.now.numbers.items)
            × HoldsAt (λ b. b.number ≡ number) self.now.numbers.items i) }
    {
        let hash = hash_of(number);
        for tried in 0..TRIES {
            let index = self.hints.guess(hash, tried)?;
            if is_same(self.numbers.get(index)?.number, number) {
                return Some(index);
            }
        }
        None
    }

    /// Now and then guesses at the indexes of the next numbers.
    pub(crate) fn ahead(&self) -> &[u64] {
        self.order.ahead()
    }

    /// The key of the number with an index, if there is one.
    pub(crate) fn key_at(&self, index: usize) -> u64 {
        self.numbers.get(index).map_or(0, |number| number.key)
    }

    /// The rank of a number among these, by its index if that is known.
    pub(crate) fn rank(&self, number: Between, index: Option<usize>) -> u64
        requires rising { IsStrictlySortedBy between_cmp self.now.numbers.items }
        requires index { IfSome index (λ i. (i < length self.now.numbers.items)
            × HoldsAt (λ b. b.number ≡ number.number) self.now.numbers.items i) }
        ensures { result ≡ rank (between_worths self.now.numbers.items) (between_worth number) }
    {
        match index {
            Some(i) => 2 * i as u64 + 1,
            None => self.searched_rank(Position::Between(number)),
        }
    }

    /// The rank of a double among these, from a guess at how many are less.
    pub(crate) fn rank_of_double(&self, key: u64, guess: usize) -> u64
        requires rising { IsStrictlySortedBy between_cmp self.now.numbers.items }
        requires key { IsKey key }
        ensures { result ≡ rank (between_worths self.now.numbers.items) (key_worth key) }
    {
        if self.are_less(key, guess) {
            return 2 * guess as u64;
        }
        self.searched_rank(Position::Double(key))
    }

    /// Whether that many of these are less than the double with a key.
    fn are_less(&self, key: u64, count: usize) -> bool
        requires rising { IsStrictlySortedBy between_cmp self.now.numbers.items }
        requires key { IsKey key }
        ensures { result ≡ true → (count ≤ length self.now.numbers.items)
            × (rank (between_worths self.now.numbers.items) (key_worth key) ≡ 2 * count) }
    {
        let below = ends_below(&self.numbers, count, key);
        let above = starts_above(&self.numbers, count, key);
        below && above
    }

    /// The rank of a number among these, by a search.
    fn searched_rank(&self, position: Position) -> u64
        requires rising { IsStrictlySortedBy between_cmp self.now.numbers.items }
        requires position { IsPosition position }
        ensures { result ≡ rank (between_worths self.now.numbers.items) (position_worth position) }
    {
        match self.numbers.binary_search_by(|t| beside(*t, position)) {
            Ok(i) => 2 * i as u64 + 1,
            Err(i) => 2 * i as u64,
        }
    }
}

/// Whether the number before an index, if it is not 0, has a lesser key.
fn ends_below(numbers: &[Between], index: usize, key: u64) -> bool
    ensures { result ≡ true → 0 < index →
        (index ≤ length numbers.now) × HoldsAt (λ b. b.key < key) numbers.now (index - 1) }
{
    match numbers.get(index.wrapping_sub(1)) {
        Some(last) => last.key < key,
        None => index == 0,
    }
}

/// Whether the number at an index, if there is one, has no lesser key.
fn starts_above(numbers: &[Between], index: usize, key: u64) -> bool
    ensures { result ≡ true → index < length numbers.now →
        HoldsAt (λ b. key ≤ b.key) numbers.now index }
{
    match numbers.get(index) {
        Some(next) => key <= next.key,
        None => true,
    }
}

/// Notes the indexes of the numbers of a row in the order in which they were added, unless many have one key.
fn note_order(alloc: Global, order: &mut Order, numbers: &[Between]) {
    let mut keys = Vec::new(alloc);
    for number in numbers {
        if keys.push(number.key).is_err() {
            order.give_up();
            return;
        }
    }
    if are_crowded(&keys) {
        order.give_up();
    }
    order.note_all(&keys);
}

/// Whether more than one key of sixteen occurs so often that a guess can fail.
fn are_crowded(keys: &[u64]) -> bool {
    let mut crowded: usize = 0;
    for index in TRIES..keys.len() {
        if keys.get(index.wrapping_sub(TRIES)) == keys.get(index) {
            crowded = crowded.saturating_add(1);
        }
    }
    crowded > keys.len() / 16
}

/// Whether two numbers have the same type and the same bits.
fn is_same(a: Number, b: Number) -> bool
    ensures { result ≡ true → a ≡ b }
{
    match (a, b) {
        (Number::Whole(m), Number::Whole(n)) => m == n,
        (Number::Decimal128(low, high), Number::Decimal128(l, h)) => low == l && high == h,
        _ => false,
    }
}

/// A hash of a number, by its bits.
fn hash_of(number: Number) -> u64 {
    match number {
        Number::Whole(z) => z.cast_unsigned(),
        Number::Double(bits) => bits,
        Number::Decimal128(low, high) => low.wrapping_add(high),
    }
}

/// Notes where the numbers of a row are.
fn note_all(hints: &mut Hints, numbers: &[Between]) {
    hints.renew(numbers.len());
    for index in 0..numbers.len() {
        hints.note(hash_of(numbers[index].number), index);
    }
}
