//! What is printed for one document after the other.

use crate::layout::{Layout, Scratch, append_document};
use bd_extjson_text::append_few;
use bd_value::NoMemory;
use std::alloc::Global;

/// Buffers for what is printed for one document after the other, each over the one before. They are allocated once, and grow.
#[derive(Debug, Drop)]
pub struct LayoutBuffer {
    scratch: Scratch,
    buffer: Vec<u8>,
}

impl LayoutBuffer {
    ghost use Rattle.std.specs.Prelude.{◌≡◌, ℕ, None, IfOk};
    ghost use Rattle.bd_bson_check.specs.FirstFault.{fault_under};
    ghost use Rattle.bd_bson_check.specs.declared.profile.Profile.TheVariants.{All};
    ghost use Rattle.bd_wide_layout.specs.Layout.{IsPieceOfBytes, layout_view};

    /// Empty buffers.
    pub fn new(alloc: Global) -> LayoutBuffer {
        LayoutBuffer {
            scratch: Scratch::new(alloc),
            buffer: Vec::new(alloc),
        }
    }

    /// What is printed for a document of all types, whose bytes have no fault, with that number, the first of which is 0: its text in
    /// the layout, and what is before and after it.
    ///
    /// `NoMemory` if it does not fit and memory runs out.
    pub fn piece(
        &mut self,
        alloc: Global,
        layout: &Layout,
        number: u32,
        bytes: &[u8],
    ) -> Result<&[u8], NoMemory>
        requires { (base : ℕ) × (fault_under All base bytes.now ≡ None) }
        ensures { IfOk result (λ piece.
            IsPieceOfBytes (layout_view layout.now) number bytes.now piece.now) }
    {
        let scratch = &mut self.scratch;
        let end = append_few(layout.before(number), &mut self.buffer, 0)?;
        let end = append_document(alloc, layout, bytes, scratch, &mut self.buffer, end)?;
        let end = append_few(layout.ending(), &mut self.buffer, end)?;
        Ok(&self.buffer[..end])
    }
}
