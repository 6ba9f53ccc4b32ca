//! `bd_path_rows`: the answers of the functions of `bd_path`, and of the order of values of `bd_value`, to rows.
//!
//! A row is a line of standard input, a document as Extended JSON: its field `call` names a function, and other fields are
//! its arguments. The answer is a line too: a value as Extended JSON, or a message why there is none. Each function is called
//! over the row in memory and over its bytes, and one that compares values over each pair of these: all must give the same
//! answer.
//!
//! The rows are the file `stdin`, and the expected answers are `stdout`. No program wrote these: the answers were worked out
//! by hand, from the MongoDB manual ("Comparison/Sort Order", "Query on Embedded/Nested Documents", "Query an Array", "Query
//! for Null or Missing Fields") and, if it leaves a choice open, from what this project chose. The texts that are read and
//! written again are those of `tests/rows/pack-*.jsonl`. For one row only, whose values were put together at random,
//! `tests/model/answers.py` found the order.
//!
//! - `calls`: the calls, by their names.
//! - `order`: the calls that order values.
//! - `fault`: why a row has no answer.
#![tactic(auto)]

mod calls;
mod fault;
mod order;

use bd_bson_check::check_document;
use bd_bson_write::write_document;
use bd_extjson::read_doc;
use bd_extjson_text::write_value;
use bd_value::{Reading, Tree};
use calls::call;
use fault::RowFault;
use std::alloc::Global;
use std::io;

/// The text of the answer to a row, which is given in two forms.
fn text_of<M: Reading, N: Reading>(alloc: Global, row: M, other: N) -> Result<Vec<u8>, RowFault> {
    let mut text = Vec::new(alloc);
    write_value(&call(alloc, row, other)?, &mut text)?;
    Ok(text)
}

/// The text of the answer to a row, the same in memory and in bytes.
fn answer(alloc: Global, row: &str) -> Result<Vec<u8>, RowFault> {
    let document = read_doc(alloc, row.as_bytes())?;
    let bytes = write_document(alloc, &document)?;
    if bytes.len() > 16_793_600 {
        return Err(RowFault("document too long"));
    }
    let tree = Tree::Doc(&document);
    let view = check_document(alloc, &bytes, 0, 0)?.value();
    let text = text_of(alloc, tree, tree)?;
    if text_of(alloc, tree, view)? != text
        || text_of(alloc, view, tree)? != text
        || text_of(alloc, view, view)? != text
    {
        return Err(RowFault("the bytes answer something else"));
    }
    Ok(text)
}

fn main(rt: HostRuntime) -> io::Result<()> {
    for row in rt.lines(rt.alloc()) {
        match answer(rt.alloc(), row?.as_str()) {
            Ok(text) => println!(rt; "{}", String::from_utf8_lossy(rt.alloc(), &text)?)?,
            Err(RowFault(words)) => println!(rt; "{words}")?,
        }
    }
    Ok(())
}
