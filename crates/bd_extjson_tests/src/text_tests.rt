//! Texts that are appended, buffers that are reused, and laws.
use bd_extjson::{read_doc_with, reads_back, text_determines_document};
use bd_extjson_text::{
    TextBuffer, write_doc, write_node, write_number, write_path, write_string, write_value,
};
use bd_value::{Tree, Value};
use json::Scratch;

#[test]
fn writes_numbers(rt: HostRuntime) {
    let mut out = Vec::new(rt.alloc());
    write_number(u64::MAX, &mut out).expect(&rt, "64 bits");
    out.push(b' ').expect(&rt, "a space");
    write_number(0, &mut out).expect(&rt, "a zero");
    assert!(rt; out.as_slice() == b"18446744073709551615 0".as_slice());
}

/// The text before is unchanged.
#[test]
fn writes_strings_nodes_and_paths(rt: HostRuntime) {
    let mut out = Vec::new(rt.alloc());
    write_string("\"", &mut out).expect(&rt, "a string");
    write_node(Tree::Value(&Value::Null), &mut out).expect(&rt, "null");
    write_value(&Value::MinKey, &mut out).expect(&rt, "a wrapper");
    write_path(&[], &mut out).expect(&rt, "a path");
    assert!(rt; out.as_slice() == br#""\""null{"$minKey":1}"""#.as_slice());
}

/// Each line replaces the one before, also if it is shorter.
#[test]
fn writes_lines(rt: HostRuntime) {
    let mut buffer = TextBuffer::new(rt.alloc());
    for (value, wanted) in [(Value::Bool(false), "false\n"), (Value::Null, "null\n")] {
        let line = buffer.line(Tree::Value(&value)).expect(&rt, "a line");
        assert!(rt; line == wanted.as_bytes());
    }
}

/// The second text, with a shorter string, is read into the buffer of the first.
#[test]
fn keeps_its_buffer_from_text_to_text(rt: HostRuntime) {
    let mut scratch = Scratch::new(rt.alloc());
    for (text, wanted) in [
        (r#"{"a":"\u0061\u0062\u0063"}"#, r#"{"a":"abc"}"#),
        (r#"{"a":"\u0064"}"#, r#"{"a":"d"}"#),
    ] {
        let document = read_doc_with(rt.alloc(), text.as_bytes(), &mut scratch).expect(&rt, text);
        let mut out = Vec::new(rt.alloc());
        write_doc(&document, &mut out).expect(&rt, text);
        assert!(rt; out.as_slice() == wanted.as_bytes(), "{text}");
    }
}

/// Calls of laws, which have no body.
#[test]
fn has_laws() {
    text_determines_document();
    reads_back();
}
