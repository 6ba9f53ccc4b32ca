//! Replies made by hand, which no talk has.
use crate::samples::three;
use bd_cli_print::NamedPrinter;
use bd_cli_service::{Reply, write_batch, write_refusal, write_reply};
use bd_cursor::{Explain, Plan};
use bd_cursor_request::{Batch, Made};
use std::alloc::Global;
use std::test::Fail;

/// Whether a reply has this text, after the bytes before it.
fn is_reported(alloc: Global, reply: &Reply, wanted: &str) -> Result<bool, Fail> {
    let dump = three(alloc)?;
    let mut text = Vec::from_slice(alloc, b"x")?;
    write_reply(alloc, &dump, reply, &mut text)?;
    Ok(text.strip_prefix(b"x".as_slice()) == Some(wanted.as_bytes()))
}

#[test]
fn results(rt: HostRuntime) -> Result<(), Fail> {
    for (reply, wanted) in [
        (
            Reply::Opened(9_223_372_036_854_775_807),
            r#"{"ok":true,"cursor":{"$numberLong":"9223372036854775807"}}"#,
        ),
        (
            Reply::Made(Made {
                entries: 4_294_967_296,
                multikey: true,
            }),
            r#"{"ok":true,"entries":{"$numberLong":"4294967296"},"multikey":true}"#,
        ),
        (
            Reply::Explained(Explain {
                plan: Plan::Scan,
                index: None,
                entries: 3,
                documents: 2,
                matches: 1,
            }),
            r#"{"ok":true,"plan":"scan","index":null,"entries":{"$numberLong":"3"},"documents":{"$numberLong":"2"},"matches":{"$numberLong":"1"}}"#,
        ),
    ] {
        assert!(rt; is_reported(rt.alloc(), &reply, wanted)?, "{wanted}");
    }
    Ok(())
}

/// The second document, with no token.
#[test]
fn a_batch_without_a_token(rt: HostRuntime) -> Result<(), Fail> {
    let batch = Batch {
        places: Vec::from_slice(rt.alloc(), &[1])?,
        token: None,
        end: true,
    };
    let wanted = r#"{"ok":true,"documents":[{}],"end":true,"token":null}"#;
    assert!(rt; is_reported(rt.alloc(), &Reply::Gave(batch), wanted)?);
    Ok(())
}

/// The third document and the first, in that order; there is no eighth one.
#[test]
fn a_batch_by_a_printer(rt: HostRuntime) -> Result<(), Fail> {
    let alloc = rt.alloc();
    let dump = three(alloc)?;
    let batch = Batch {
        places: Vec::from_slice(alloc, &[2, 0, 7])?,
        token: None,
        end: false,
    };
    let mut text = Vec::from_slice(alloc, b"x")?;
    write_batch(alloc, &NamedPrinter, &dump, &batch, &mut text)?;
    let wanted =
        r#"x{"ok":true,"documents":[{"a":true,"b":"\""},{"a":{"$numberInt":"1"}}],"end":false,"token":null}"#;
    assert!(rt; text.as_slice() == wanted.as_bytes());
    Ok(())
}

#[test]
fn a_refusal_of_another_layer(rt: HostRuntime) -> Result<(), Fail> {
    let mut text = Vec::from_slice(rt.alloc(), b"x")?;
    write_refusal("numbers", 1, "too many", &mut text)?;
    let wanted = r#"x{"ok":false,"layer":"numbers","number":{"$numberInt":"1"},"text":"too many"}"#;
    assert!(rt; text.as_slice() == wanted.as_bytes());
    Ok(())
}
