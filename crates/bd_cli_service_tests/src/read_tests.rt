//! How many documents are read, which no contract says.
use crate::samples::{read_documents, read_request};
use bd_cursor::{Choice, Session};
use bd_path::Path;
use std::alloc::Global;
use std::test::Fail;

/// A session over a hundred documents, the numbers from 0 to 99 under `a`, with an index on it.
fn indexed_hundred(alloc: Global) -> Result<Session, Fail> {
    let mut text = String::new(alloc);
    for n in 0..100u32 {
        let line = format!(in alloc; "{{\"a\":{n}}}\n")?;
        text.push_str(&line)?;
    }
    let mut session = Session::new(alloc, read_documents(alloc, &text)?);
    let _made = session.create_index(Path::parse(alloc, "a")?)?;
    Ok(session)
}

/// How many documents are read to find the one with 7, and its place.
fn reads_of_seven(alloc: Global, session: &mut Session, choice: Choice) -> Result<u64, Fail> {
    let before = session.dump().reads();
    let request = read_request(alloc, "{\"a\":7} {} 0 0")?;
    let id = session.find(request, choice)?;
    let batch = session.next(id, 5)?;
    if batch.places.as_slice() != [7].as_slice() || !batch.end {
        return Err("the place of 7".into());
    }
    Ok(session.dump().reads().saturating_sub(before))
}

/// With an index the others are not read.
#[test]
fn fewer_documents_by_an_index(rt: HostRuntime) -> Result<(), Fail> {
    let alloc = rt.alloc();
    let mut session = indexed_hundred(alloc)?;
    let path = Path::parse(alloc, "a")?;
    let by_index = reads_of_seven(alloc, &mut session, Choice::Index(path))?;
    assert!(rt; by_index < 100, "{by_index}");
    let by_scan = reads_of_seven(alloc, &mut session, Choice::Scan)?;
    assert!(rt; by_scan >= 100, "{by_scan}");
    Ok(())
}

/// The request of the documents with 7, 8 and 9, without the first of them.
const TWO_OF_THREE: &str = "{\"a\":{\"$gte\":7,\"$lt\":10}} {} 1 0";

/// Nor are they if some are skipped, or if an answer is resumed.
#[test]
fn fewer_documents_after_a_skip_and_a_token(rt: HostRuntime) -> Result<(), Fail> {
    let alloc = rt.alloc();
    let mut session = indexed_hundred(alloc)?;
    let before = session.dump().reads();
    let path = Path::parse(alloc, "a")?;
    let id = session.find(read_request(alloc, TWO_OF_THREE)?, Choice::Index(path))?;
    let batch = session.next(id, 1)?;
    assert!(rt; batch.places.as_slice() == [8].as_slice());
    let skipped = session.dump().reads();
    let token = batch.token.ok_or("a token")?;
    let path = Path::parse(alloc, "a")?;
    let request = read_request(alloc, TWO_OF_THREE)?;
    let id = session.resume(request, Choice::Index(path), &token)?;
    let batch = session.next(id, 5)?;
    assert!(rt; batch.places.as_slice() == [9].as_slice());
    let resumed = session.dump().reads();
    assert!(rt; skipped.saturating_sub(before) < 100 && resumed.saturating_sub(skipped) < 100);
    Ok(())
}
