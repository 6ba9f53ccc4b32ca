//! The text of a query that may have doubles and decimal128, and dates and UUIDs as texts.

ghost use Rattle.std.specs.Prelude.{◌≡◌, ◌≢◌, ◌↔◌, IfErr, IfOk, IsTrue, List};
ghost use Rattle.bd_value.specs.View.{pairs};
ghost use Rattle.bd_extjson_fault.specs.declared.json_fault.JsonFaultKind.TheVariants.{NoMemory as no_memory};
ghost use Rattle.bd_wide_query.specs.inside.Read.{ReadsBoth};
ghost use Rattle.bd_wide_substitute.specs.Both.{IsRead, IsUnread, both, both_documents, document_of, earlier as earlier_of};
ghost use Rattle.bd_wide_substitute.specs.Substitutes.{ArePieces, Piece, all_numbers};

use bd_extjson::read_doc;
use bd_extjson_fault::{JsonFault, JsonFaultKind};
use bd_value::Document;
use bd_wide_number::Number;
use bd_wide_substitute::{Substituted, earlier, fault_of_line, substitute};
use std::alloc::Global;

/// A query with its doubles and decimal128.
#[derive(Drop)]
pub struct WideQuery {
    /// The document with a whole number for each.
    pub wholes: Document,
    /// The one with an empty text for each.
    pub texts: Document,
    /// The doubles and decimal128, in order. In a query without them both documents are equal.
    pub numbers: Vec<Number>,
}

/// Reads the text of a query: Extended JSON v2, canonical form, bare numbers, and dates and UUIDs as texts.
///
/// # Errors
/// Those of `read_doc` of `bd_extjson`, with the byte of the text: of a text with such numbers the earlier fault of the two
/// texts that have other values for them. A number out of range and a bad text of a value have errors of their own.
/// `NoMemory` if memory runs out.
pub fn read_query(alloc: Global, text: &[u8]) -> Result<WideQuery, JsonFault>
    ensures query { IfOk result (λ q.
        IsRead text.now (pairs q.wholes) (pairs q.texts) q.numbers.items) }
    ensures fault { IfErr result (λ f. f.kind ≢ no_memory → IsUnread text.now f) }
{
    let mut made = Substituted::new(alloc);
    match substitute(text, &mut made) {
        Ok(true) => {
            let documents = read_both(alloc, &made.wholes, &made.texts);
            query_of(text, documents, made.numbers)
        }
        Ok(false) => query_of(text, read_both(alloc, text, text), Vec::new(alloc)),
        Err(_) => Err(NO_MEMORY),
    }
}

/// Memory ran out; this has no offset.
const NO_MEMORY: JsonFault = JsonFault {
    kind: JsonFaultKind::NoMemory,
    at: 0,
};

/// The query of two documents and numbers, or the fault of its text by that of the two texts.
fn query_of(
    text: &[u8],
    documents: Result<(Document, Document), JsonFault>,
    numbers: Vec<Number>,
) -> Result<WideQuery, JsonFault>
    requires { (pieces : List Piece) × ArePieces text.now pieces
        × (numbers.items ≡ all_numbers pieces) × ReadsBoth (both_documents pieces) documents }
    ensures query { IfOk result (λ q.
        IsRead text.now (pairs q.wholes) (pairs q.texts) q.numbers.items) }
    ensures fault { IfErr result (λ f. f.kind ≢ no_memory → IsUnread text.now f) }
{
    match documents {
        Ok((wholes, texts)) => Ok(WideQuery {
            wholes,
            texts,
            numbers,
        }),
        Err(fault) => Err(fault_of_line(text, fault)),
    }
}

/// The documents of two texts, or the earlier of their faults.
fn read_both(alloc: Global, whole: &[u8], text: &[u8]) -> Result<(Document, Document), JsonFault>
    ensures { ReadsBoth (both (document_of whole.now) (document_of text.now)) result }
{
    match (read_doc(alloc, whole), read_doc(alloc, text)) {
        (Ok(wholes), Ok(texts)) => Ok((wholes, texts)),
        (Err(one), Err(other)) => Err(first_fault(one, other)),
        (Err(fault), Ok(_)) | (Ok(_), Err(fault)) => Err(fault),
    }
}

/// The earlier of two faults; if memory ran out, that.
fn first_fault(one: JsonFault, other: JsonFault) -> JsonFault
    ensures { result.kind ≢ no_memory → (one.kind ≢ no_memory) × (other.kind ≢ no_memory)
        × (result ≡ earlier_of one other) }
{
    if is_no_memory(one) {
        return one;
    }
    if is_no_memory(other) {
        return other;
    }
    earlier(one, other)
}

/// Whether memory ran out.
fn is_no_memory(fault: JsonFault) -> bool
    ensures { IsTrue result ↔ (fault.kind ≡ no_memory) }
{
    matches!(fault.kind, JsonFaultKind::NoMemory)
}
