//! What no reply says of a command.
use bd_cli_command::{Command, CommandFault, Hint, read_command};
use bd_extjson::read_doc;
use std::test::Fail;

/// Whether documents are searched by a scan, and how many are skipped.
#[test]
fn scans_and_skips(rt: HostRuntime) -> Result<(), Fail> {
    let alloc = rt.alloc();
    for (text, is_scan, skip) in [
        (r#"{"find":{}}"#, false, 0),
        (
            r#"{"find":{"a":1,"b":2},"use":"auto","limit":3,"sort":{"a":1}}"#,
            false,
            0,
        ),
        (
            r#"{"resume":"t","filter":{},"sort":{},"skip":1,"limit":2,"use":"scan"}"#,
            true,
            1,
        ),
        (
            r#"{"resume":"t","use":"scan","sort":{"a":1,"b":-1},"filter":{"c":1}}"#,
            true,
            0,
        ),
        (r#"{"explain":{"a":1},"skip":1}"#, false, 1),
    ] {
        let document = read_doc(alloc, text.as_bytes())?;
        let command = read_command(alloc, &document)?;
        match &command {
            Command::Find(find) | Command::Resume { find, .. } | Command::Explain(find) => {
                assert!(rt;
                    matches!(find.hint, Hint::Scan) == is_scan && find.skip == skip,
                    "{text}"
                );
            }
            _ => return Err("another command".into()),
        }
    }
    Ok(())
}

/// No test can make it happen.
#[test]
fn has_words_for_want_of_memory(rt: HostRuntime) {
    assert!(rt; CommandFault::NoMemory.words() == "no memory");
    assert!(rt; CommandFault::NoMemory.number() == 6);
}
