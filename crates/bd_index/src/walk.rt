//! The places of all documents, in the order of an index.

ghost use Rattle.std.specs.Prelude.{◌≡◌, ◌<◌, All, IfOk, false, length};
ghost use Rattle.std.proofs.Props.{props};
ghost use Rattle.bd_index.specs.Walk.{places_ahead};

use crate::entry_order::EntryOrder;
use crate::index::Index;
use bd_bson_dump::Dump;
use bd_cursor_model::PlaceSource;
use bd_path::Dir;
use bd_value::NoMemory;
use std::alloc::Global;

/// The places of all documents, each once, in the order of a sort by the path of an index. Its memory is taken when it is
/// made, and it reads no more entries than are requested.
#[derive(Drop)]
pub struct Walk<'a> {
    pub(crate) order: EntryOrder<'a>,
    /// For each place, whether it was returned.
    pub(crate) visited: Vec<bool>,
    ghost in_range: { All (λ p.
        p < length visited.items) (places_ahead order) } by { Prim.hlevel props },
}

impl<'a> Iterator for Walk<'a> {
    ghost use Rattle.std.specs.Iterator.{YieldsFirst, item_count};
    ghost use Rattle.bd_index.specs.WalkRemaining.{walk_remaining};

    type Item = u32;

    ghost next_gives = { YieldsFirst walk_remaining };

    ghost remaining = { item_count walk_remaining };

    /// The next place. It takes no memory.
    fn next(&mut self) -> Option<u32> {
        while let Some((place, after)) = self.order.split_first() {
            self.order = after;
            if !self.visited[place as usize] {
                self.visited[place as usize] = true;
                return Some(place);
            }
        }
        None
    }
}

impl<'a> PlaceSource for Walk<'a> {
    ghost use Rattle.bd_index.specs.Walk.{WalksEach, walk_law};
    ghost use Rattle.bd_index.specs.WalkRemaining.{walk_remaining};

    ghost remaining = { walk_remaining };

    ghost serves = { λ s n matches_at. WalksEach n (walk_remaining s) };

    fn next_place(&mut self) -> Option<u32> {
        self.next()
    }

    ghost law = { λ s n matches_at w. walk_law n matches_at (walk_remaining s) w };
}

impl Index {
    ghost use Rattle.bd_bson_dump.specs.Collection.{documents};
    ghost use Rattle.bd_index.specs.IndexView.{IsIndexOf, index_is_sparse, index_names};
    ghost use Rattle.bd_index.specs.Walk.{WalksAll};
    ghost use Rattle.bd_index.specs.WalkRemaining.{walk_remaining};

    /// The places of all documents, each once, in the order of a sort by the path of the index; documents with equal sort keys are
    /// in file order, in both directions. It fails only if memory runs out.
    pub fn walk<'a>(&'a self, alloc: Global, dump: &'a Dump, dir: Dir) -> Result<Walk<'a>, NoMemory>
        requires index { IsIndexOf dump.now self.now }
        requires whole { index_is_sparse self.now ≡ false }
        ensures { IfOk result (λ walk.
            WalksAll dir (index_names self.now) (documents dump.now) (walk_remaining walk)) }
    {
        let visited = vec![in alloc; false; dump.len() as usize]?;
        let order = match dir {
            Dir::Up => EntryOrder::upward(dump, self),
            Dir::Down => EntryOrder::downward(dump, self),
        };
        Ok(Walk { order, visited })
    }
}
