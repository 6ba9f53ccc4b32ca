//! Numbers that are doubles, by their keys.

ghost use Rattle.std.specs.Prelude.{◌∷◌, ◌≡◌, ◌<◌, ◌≤◌, ◌-◌, ◌*◌, [], IfSome, OnErr, OnOk, length, slice_index, true};
ghost use Rattle.std.specs.List.{All, HoldsAt};
ghost use Rattle.std.specs.List.Sorted.{IsStrictlyIncreasing};
ghost use Rattle.std.proofs.Props.{props};
ghost use Rattle.bd_wide_rank.specs.Rank.{HaveSame, rank};
ghost use Rattle.bd_wide_rank.specs.Key.{key_worth};
ghost use Rattle.bd_wide_rank.specs.Rows.{between_worth};
ghost use Rattle.bd_wide_rank.specs.inside.Key.{IsKey};

use crate::between::Between;
use crate::hints::{Hints, TRIES};
use crate::order::Order;
use bd_value::NoMemory;
use std::alloc::Global;

/// Doubles, some of them more than once.
#[derive(Drop)]
pub(crate) struct Doubles {
    pub keys: Vec<u64>,
    /// Where the keys are, once they are sorted: in the order in which they were added, or by hints.
    order: Order,
    hints: Hints,
    /// If there are this many, repeats are dropped before the next one.
    limit: usize,
    ghost are_keys: { All IsKey keys.items } by { Prim.hlevel props },
}

/// Fewer are not sorted.
const LEAST_LIMIT: usize = 1024;

impl Doubles {
    ghost use Rattle.bd_wide_rank.specs.Key.{key_worths};

    /// No doubles.
    pub(crate) fn new(alloc: Global) -> Doubles
        ensures { result.keys.items ≡ [] }
    {
        Doubles {
            keys: Vec::new(alloc),
            order: Order::new(alloc),
            hints: Hints::new(alloc),
            limit: LEAST_LIMIT,
        }
    }

    /// Adds a double.
    pub(crate) fn push(&mut self, key: u64) -> Result<(), NoMemory>
        requires { IsKey key }
        ensures ok { OnOk result (HaveSame (key_worths self.new.keys.items)
            (key_worth key ∷ key_worths self.old.keys.items)) }
        ensures err { OnErr result (HaveSame (key_worths self.new.keys.items)
            (key_worths self.old.keys.items)) }
    {
        if self.keys.len() >= self.limit {
            self.drop_repeats();
        }
        self.keys.push(key)?;
        self.order.add(key);
        Ok(())
    }

    /// Sorts the doubles and drops repeats, so that each is found fast.
    pub(crate) fn sort(&mut self)
        ensures same { HaveSame (key_worths self.new.keys.items) (key_worths self.old.keys.items) }
        ensures rising { IsStrictlyIncreasing self.new.keys.items }
    {
        self.drop_repeats();
        self.order.note_all(&self.keys);
        if !self.order.is_kept() {
            note_all(&mut self.hints, &self.keys);
        }
    }

    /// Sorts the doubles, and drops repeats.
    fn drop_repeats(&mut self)
        ensures same { HaveSame (key_worths self.new.keys.items) (key_worths self.old.keys.items) }
        ensures rising { IsStrictlyIncreasing self.new.keys.items }
    {
        self.keys.sort_unstable();
        self.keys.dedup();
        self.order.drop_if_few(self.keys.len());
        self.limit = self.keys.len().saturating_mul(4).max(LEAST_LIMIT);
    }

    /// The index of a double, if a guess finds it: fast in the order in which the doubles were added.
    pub(crate) fn find(&self, key: u64) -> Option<usize>
        ensures { IfSome result (λ i. (i < length self.now.keys.items)
            × HoldsAt (λ k. k ≡ key) self.now.keys.items i) }
    {
        if let Some(index) = self.order.guess() {
            if let Some(next) = self.keys.get(index) {
                if *next == key {
                    self.order.advance();
                    return Some(index);
                }
            }
        }
        self.hinted(key)
    }

    /// The index of a double, if a hint finds it.
    fn hinted(&self, key: u64) -> Option<usize>
        ensures { IfSome result (λ i. (i < length self.now.keys.items)
            × HoldsAt (λ k. k ≡ key) self.now.keys.items i) }
    {
        for tried in 0..TRIES {
            let index = self.hints.guess(key, tried)?;
            if *self.keys.get(index)? == key {
                return Some(index);
            }
        }
        None
    }

    /// The key of the double with an index, if there is one.
    pub(crate) fn key_at(&self, index: usize) -> u64 {
        self.keys.get(index).map_or(0, |key| *key)
    }

    /// Now and then guesses at the indexes of the next doubles.
    pub(crate) fn ahead(&self) -> &[u64] {
        self.order.ahead()
    }

    /// The rank of a double among these, by its index if that is known.
    pub(crate) fn rank(&self, key: u64, index: Option<usize>) -> u64
        requires rising { IsStrictlyIncreasing self.now.keys.items }
        requires key { IsKey key }
        requires index { IfSome index (λ i. (i < length self.now.keys.items)
            × HoldsAt (λ k. k ≡ key) self.now.keys.items i) }
        ensures { result ≡ rank (key_worths self.now.keys.items) (key_worth key) }
    {
        match index {
            Some(i) => 2 * i as u64 + 1,
            None => self.searched_rank(key),
        }
    }

    /// The rank of a number that no double equals, from a guess at how many doubles are less.
    pub(crate) fn rank_between(&self, number: Between, guess: usize) -> u64
        requires { IsStrictlyIncreasing self.now.keys.items }
        ensures { result ≡ rank (key_worths self.now.keys.items) (between_worth number) }
    {
        if self.are_less(number, guess) {
            return 2 * guess as u64;
        }
        match self.keys.binary_search(&number.key) {
            Ok(i) => 2 * i as u64 + 2,
            Err(i) => 2 * i as u64,
        }
    }

    /// Whether that many doubles are less than a number that no double equals.
    fn are_less(&self, number: Between, count: usize) -> bool
        requires { IsStrictlyIncreasing self.now.keys.items }
        ensures { result ≡ true → (count ≤ length self.now.keys.items)
            × (rank (key_worths self.now.keys.items) (between_worth number) ≡ 2 * count) }
    {
        let below = ends_below(&self.keys, count, number.key);
        let above = starts_above(&self.keys, count, number.key);
        below && above
    }

    /// The rank of a double among these, by a search.
    fn searched_rank(&self, key: u64) -> u64
        requires rising { IsStrictlyIncreasing self.now.keys.items }
        requires key { IsKey key }
        ensures { result ≡ rank (key_worths self.now.keys.items) (key_worth key) }
    {
        match self.keys.binary_search(&key) {
            Ok(i) => 2 * i as u64 + 1,
            Err(i) => 2 * i as u64,
        }
    }
}

/// Notes where the doubles of a row are.
fn note_all(hints: &mut Hints, keys: &[u64]) {
    hints.renew(keys.len());
    for index in 0..keys.len() {
        hints.note(keys[index], index);
    }
}

/// Whether the key before an index, if it is not 0, is at most another one.
fn ends_below(keys: &[u64], index: usize, key: u64) -> bool
    ensures { result ≡ true → 0 < index →
        (index ≤ length keys.now) × (slice_index keys.now (index - 1) ≤ key) }
{
    match keys.get(index.wrapping_sub(1)) {
        Some(last) => *last <= key,
        None => index == 0,
    }
}

/// Whether the key at an index, if there is one, is greater than another one.
fn starts_above(keys: &[u64], index: usize, key: u64) -> bool
    ensures { result ≡ true → index < length keys.now → key < slice_index keys.now index }
{
    match keys.get(index) {
        Some(next) => key < *next,
        None => true,
    }
}
