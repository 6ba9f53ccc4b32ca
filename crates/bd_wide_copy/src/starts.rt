//! Where the documents of a dump begin, apart from its bytes.

ghost use Rattle.std.specs.Prelude.{◌≡◌, ◌<◌, ℕ, None};
ghost use Rattle.bd_bson_check.specs.FirstFault.{fault_under};
ghost use Rattle.bd_bson_check.specs.declared.profile.Profile.TheVariants.{All};
ghost use Rattle.bd_wide_copy.specs.Dump.{AreStartsOf, IsCount, IsDocumentAt};

use bd_bson_view::raw_parts as raw;

/// Where the documents of a dump of all types begin.
#[derive(Drop)]
pub struct Starts {
    pub(crate) starts: Vec<u32>,
}

impl Starts {
    /// The bytes of the document with that number among those of the dump. They have no fault. It takes no memory.
    pub fn document<'a>(&self, bytes: &'a [u8], n: u32) -> &'a [u8]
        requires starts { AreStartsOf self.now bytes.now }
        requires inside { (count : ℕ) × IsCount bytes.now count × (n < count) }
        ensures document { IsDocumentAt bytes.now n result.now }
        ensures sound { (base : ℕ) × (fault_under All base result.now ≡ None) }
    {
        let start = self.starts[n as usize] as usize;
        let (_, rest) = bytes.split_at(start);
        let size = raw::number(rest) as usize;
        let (document, _) = rest.split_at(size);
        document
    }
}
