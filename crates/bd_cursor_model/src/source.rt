//! Sources of places.
ghost use Rattle.std.specs.Prelude.{Bool, List, ℕ};
ghost use Rattle.bd_cursor_model.specs.Source.{HandsOut, IsSource, ScansAll, scan_law, scan_places};

/// Returns places, which include those of all documents that match.
pub trait PlaceSource {
    /// The places that it has yet to return.
    ghost remaining: { Self → List ℕ };

    /// What makes it a source for n documents and a test.
    ghost serves: { Self → ℕ → (ℕ → Bool) → Type 0 };

    /// The next place, if any. It takes no memory.
    fn next_place(&mut self) -> Option<u32>
        ensures { HandsOut result (remaining self.old) (remaining self.new) };

    /// No match is missing, and none comes twice.
    ghost law: { (s : Self) (n : ℕ) (matches_at : ℕ → Bool) →
        serves s n matches_at → IsSource n matches_at (remaining s) };
}

/// Every place, ascending.
#[derive(Clone, Copy, Debug)]
pub struct Scan {
    next: u32,
    count: u32,
}

impl Scan {
    /// A scan of n documents.
    pub fn new(count: u32) -> Scan
        ensures { ScansAll result count }
    {
        Scan { next: 0, count }
    }
}

impl PlaceSource for Scan {
    ghost remaining = { scan_places };

    ghost serves = { λ s n matches_at. ScansAll s n };

    fn next_place(&mut self) -> Option<u32> {
        if self.next < self.count {
            let place = self.next;
            self.next += 1;
            Some(place)
        } else {
            None
        }
    }

    ghost law = { scan_law };
}
