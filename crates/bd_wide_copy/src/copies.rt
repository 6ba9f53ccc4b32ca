//! The documents of a dump in turn: their copies, and their numbers.

ghost use Rattle.std.specs.Prelude.{◌≡◌, ◌≤◌, ◌++◌, ℤ, FitsSigned, IfSome, OnErr, OnOk, length, map};
ghost use Rattle.std.specs.Int.{w32};
ghost use Rattle.std.specs.Io.{StartsWith};
ghost use Rattle.bd_wide.specs.Rewritten.{Adds};
ghost use Rattle.bd_wide_copy.specs.inside.Copies.{AreCopies};
ghost use Rattle.bd_wide_copy.specs.Numbers.{AreNumbersOf};
ghost use Rattle.bd_wide_copy.specs.inside.Added.{AddsWorths};
ghost use Rattle.bd_wide_copy.specs.inside.Starts.{frame_size as frame_size_of};
ghost use Rattle.bd_wide_rank.specs.{Rank.HaveSame, Table.collected, Worth.worth_of};

use crate::copy::{Codes, write_copy};
use crate::longs::Longs;
use crate::numbers::collect_numbers;
use bd_bson_view::raw_parts as raw;
use bd_value::NoMemory;
use bd_wide_number::Number;
use bd_wide_rank::Numbers;
use std::alloc::Global;

/// The length that the document at the start states, if it is 5 or more and at least that many bytes are there.
#[tactic(auto, unfolding(crate::specs::inside::Starts::frame_size))]
fn frame_size(bytes: &[u8]) -> Option<usize>
    ensures gives { result ≡ frame_size_of bytes.now }
    ensures inside { IfSome result (λ n. (5 ≤ n) × (n ≤ length bytes.now)) }
{
    if bytes.len() < 5 {
        return None;
    }
    let size = raw::number(bytes) as usize;
    if size < 5 || bytes.len() < size {
        return None;
    }
    Some(size)
}

/// Appends the copy of each document of a dump. After `NoMemory`, `out` may have more bytes.
pub(crate) fn write_copies<C: Codes>(
    codes: &C,
    longs: Longs,
    bytes: &[u8],
    out: &mut Vec<u8>,
) -> Result<(), NoMemory>
    requires { (z : ℤ) → FitsSigned w32 (C.code_of codes.now z) }
    ensures ok { OnOk result (Adds (AreCopies longs (C.worth_of codes.now)
        (C.code_of codes.now) bytes.now) out.old.items out.new.items) }
    ensures prefix { OnErr result (StartsWith out.new.items out.old.items) }
{
    let mut rest = bytes;
    while let Some(size) = frame_size(rest) {
        let (document, after) = rest.split_at(size);
        write_copy(codes, longs, document, out)?;
        rest = after;
    }
    Ok(())
}

/// Adds the numbers of each document of a dump. After `NoMemory` there may be more numbers.
pub(crate) fn add_all(alloc: Global, bytes: &[u8], numbers: &mut Numbers) -> Result<(), NoMemory>
    ensures { OnOk result (AddsWorths bytes.now (collected numbers.old) (collected numbers.new)) }
{
    let mut all = Vec::new(alloc);
    let mut rest = bytes;
    while let Some(size) = frame_size(rest) {
        let (document, after) = rest.split_at(size);
        add_document(document, &mut all, numbers)?;
        rest = after;
    }
    Ok(())
}

/// Adds the numbers of a document, which replace those in `all`.
fn add_document(
    document: &[u8],
    all: &mut Vec<Number>,
    numbers: &mut Numbers,
) -> Result<(), NoMemory>
    ensures { OnOk result (AreNumbersOf document.now all.new.items
        × HaveSame (collected numbers.new) (map worth_of all.new.items ++ collected numbers.old)) }
{
    all.clear();
    collect_numbers(document, all)?;
    push_all(all, numbers)?;
    Ok(())
}

/// Adds numbers.
fn push_all(all: &[Number], numbers: &mut Numbers) -> Result<(), NoMemory>
    ensures { OnOk result
        (HaveSame (collected numbers.new) (map worth_of all.now ++ collected numbers.old)) }
{
    for number in all {
        numbers.push(*number)?;
    }
    Ok(())
}
