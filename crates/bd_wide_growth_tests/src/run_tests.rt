//! Runs of `find` and `serve` over devices: if memory runs out, that is reported, and only whole lines were printed.
use crate::answers::{RowFault, is_whole};
use crate::samples::THREE;
use bd_cli_args::{FindOptions, Form};
use bd_cli_scan::Status;
use bd_io_device::{MemoryInput, MemoryOutput};
use bd_wide_dump::JsonFormat;
use bd_wide_find::find::find;
use bd_wide_layout::{JsonLayout, Layout};
use bd_wide_service::serve::serve;
use std::alloc::Global;

/// Whether a run wrote all of this to standard output and standard error; or why not.
fn outcome(
    status: Status,
    printed: &[u8],
    reported: &[u8],
    lines: &[u8],
    counts: &[u8],
) -> Result<bool, RowFault> {
    if status == Status::Done {
        return Ok(printed == lines && reported == counts);
    }
    let are_whole = printed.is_empty() || printed.ends_with(b"\n");
    if are_whole && lines.starts_with(printed) && reported == b"bsonwide: no memory\n".as_slice() {
        return Err(RowFault::NoMemory);
    }
    Err(RowFault::Otherwise)
}

/// What `find` prints.
const FOUND: &[u8] = b"{\"a\":2}\n{\"a\":1.5}\n";

/// What it reports. The token was made by another program, of the copy with the codes 3, 5 and 1.
const COUNTS: &[u8] =
    b"2 documents, end, token AQIAAAAAAAAAAAAAAH3AgLsJ+pkVsxPsrAr3aMj+HcfZKH/DztDNohokPBdZ\n";

/// The greatest numbers first of those that are at most 2.
fn finds(alloc: Global) -> Result<bool, RowFault> {
    let options = FindOptions {
        query: None,
        sort: Some(String::from_str(alloc, "{\"a\":-1}")?),
        skip: 0,
        limit: 0,
        batch: None,
        index: Some(String::from_str(alloc, "a")?),
        after: None,
    };
    let layout = Layout::Json(JsonLayout {
        format: JsonFormat::Relaxed,
        paths: None,
        is_array: false,
        is_pretty: false,
    });
    let mut file = MemoryInput::new(THREE, 50, None);
    let mut buffer = [0; 100];
    let mut out = MemoryOutput::new(&mut buffer, 100, None);
    let mut reported = [0; 100];
    let mut err = MemoryOutput::new(&mut reported, 100, None);
    let query = b"{\"a\":{\"$lte\":{\"$numberDecimal\":\"2.0\"}}}";
    let status = find(
        alloc,
        "bsonwide",
        &layout,
        Form::Lines,
        query,
        &options,
        &mut file,
        &mut out,
        &mut err,
    );
    outcome(status, out.bytes(), err.bytes(), FOUND, COUNTS)
}

/// Commands over the three numbers, of which the last names some of the types of numbers.
const COMMANDS: &[u8] = br#"{"createIndex":"a"}
{"find":{"a":{"$lte":2.0}},"use":{"index":"a"}}
{"getMore":1,"batch":1}
{"getMore":1,"batch":1,"places":true}
{"explain":{"a":1.5}}
{"find":{"a":{"$type":1}}}
"#;

/// The replies. The tokens were made in the same way.
const REPLIES: &[u8] = br#"{"ok":true,"entries":{"$numberLong":"3"},"multikey":false}
{"ok":true,"cursor":{"$numberLong":"1"}}
{"ok":true,"documents":[{"a":{"$numberDouble":"1.5"}}],"end":false,"token":"AQEAAAAAAAAAAAAAACjPHJbxmTPiv/BWpmXCZC6YURlP0P1UeyGI1WDtulRD"}
{"ok":true,"places":[{"$numberInt":"1"}],"end":true,"token":"AQIAAAAAAAAAAQAAACjPHJbxmTPiv/BWpmXCZC6YURlP0P1UeyGI1WDtulRD"}
{"ok":true,"plan":"index","index":"a","entries":{"$numberLong":"1"},"documents":{"$numberLong":"1"},"matches":{"$numberLong":"1"}}
{"ok":false,"layer":"numbers","number":{"$numberInt":"1"},"text":"the types of numbers are not told apart here","place":"a.$type"}
"#;

fn serves(alloc: Global) -> Result<bool, RowFault> {
    let mut file = MemoryInput::new(THREE, 50, None);
    let mut commands = MemoryInput::new(COMMANDS, 500, None);
    let mut buffer = [0; 1000];
    let mut out = MemoryOutput::new(&mut buffer, 1000, None);
    let mut reported = [0; 100];
    let mut err = MemoryOutput::new(&mut reported, 100, None);
    let status = serve(
        alloc,
        "bsonwide",
        false,
        &mut file,
        &mut commands,
        &mut out,
        &mut err,
    );
    outcome(status, out.bytes(), err.bytes(), REPLIES, b"")
}

#[test]
fn runs(rt: HostRuntime) {
    assert!(rt; is_whole!(finds(rt.alloc())));
    assert!(rt; is_whole!(serves(rt.alloc())));
}
