//! What no command can request.
use crate::samples::{read_documents, read_request};
use bd_cursor::{Choice, Session};
use bd_cursor_request::{Refused, Request, Token};
use bd_extjson::read_doc;
use std::test::Fail;

/// A size that no command can have: the cursor is unchanged.
#[test]
fn the_greatest_size(rt: HostRuntime) -> Result<(), Fail> {
    let alloc = rt.alloc();
    let mut session = Session::new(alloc, read_documents(alloc, "{\"a\":0}")?);
    let id = session.find(read_request(alloc, "{} {} 0 0")?, Choice::Scan)?;
    assert!(rt;
        matches!(
            session.next(id, 18_446_744_073_709_551_615),
            Err(Refused::Range)
        )
    );
    let batch = session.next(id, 1)?;
    assert!(rt; batch.places.as_slice() == [0].as_slice() && batch.end);
    Ok(())
}

/// A reply has the number of the fault of a filter, and not that of the refusal.
#[test]
fn the_number_of_a_bad_filter(rt: HostRuntime) -> Result<(), Fail> {
    let alloc = rt.alloc();
    for (filter, sort, skip, words) in [
        (
            "{\"$foo\":1}",
            "{\"a\":2}",
            2_147_483_648,
            "unknown operator",
        ),
        ("{\"$and\":[]}", "{}", 0, "bad operand"),
    ] {
        let filter = read_doc(alloc, filter.as_bytes())?;
        let sort = read_doc(alloc, sort.as_bytes())?;
        match Request::new(alloc, filter, sort, skip, 0) {
            Err(refused) => assert!(rt; refused.number() == 12 && refused.words() == words),
            Ok(_) => return Err("no request".into()),
        }
    }
    Ok(())
}

/// After 2 documents, the last of which is number 2. The text was made with `base64` of GNU coreutils.
#[test]
fn a_token_and_its_text(rt: HostRuntime) -> Result<(), Fail> {
    let token = Token {
        given: 2,
        last: 2,
        digest: *b"\0\x01\x02\x03\x04\x05\x06\x07\x08\x09\x0a\x0b\x0c\x0d\x0e\x0f\x10\x11\x12\x13\x14\x15\x16\x17\x18\x19\x1a\x1b\x1c\x1d\x1e\x1f",
    };
    let text = token.text(rt.alloc())?;
    assert!(rt; text.as_str() == "AQIAAAAAAAAAAgAAAAABAgMEBQYHCAkKCwwNDg8QERITFBUWFxgZGhscHR4f");
    assert!(rt; matches!(Token::parse(text.as_str()), Ok(read) if read == token));
    Ok(())
}
