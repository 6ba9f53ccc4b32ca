//! Faults of texts that no test of the program prints.
use bd_extjson_fault::{JsonFaultKind, diagnose};
use bd_value::{MOST_BRACKETS, MOST_LEVELS};
use std::test::Fail;

/// For a document the fault is at the text's end. These are the deepest.
#[test]
fn takes_the_deepest_documents(rt: HostRuntime) -> Result<(), Fail> {
    let alloc = rt.alloc();
    for (levels, inside, end) in [
        (199, "{}", 1196),
        (198, r#"{"$code":"","$scope":{}}"#, 1212),
        (200, r#"{"$minKey":1}"#, 1213),
    ] {
        let open = r#"{"a":"#.repeat(alloc, levels)?;
        let close = "}".repeat(alloc, levels)?;
        let text = format!(in alloc; "{open}{inside}{close}")?;
        let reported = diagnose(alloc, &text);
        assert!(rt; reported.kind == JsonFaultKind::Syntax && reported.at == end);
    }
    Ok(())
}

#[test]
fn has_limits_and_words(rt: HostRuntime) {
    assert!(rt; MOST_BRACKETS == 203 && MOST_LEVELS == 200);
    assert!(rt;
        JsonFaultKind::TooDeep.words() == "too deep"
            && JsonFaultKind::NoMemory.words() == "no memory"
    );
    // It has no offset.
    let reported = diagnose(rt.alloc(), " [1]");
    assert!(rt; reported.kind == JsonFaultKind::NotADocument && reported.at == 0);
}
