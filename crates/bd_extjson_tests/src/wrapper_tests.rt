//! The functions that reading consists of, called once each.
use bd_extjson::{bare_number, read_wrapper};
use bd_extjson_wrapper::{
    Wrapper, is_whole_number, names_code, names_scope, number_of, only, pair, unwrap_single, whole,
};
use bd_value::{MOST_BRACKETS, MOST_LEVELS, Value};
use json::{Reader, Scratch, Value as Json};

#[test]
fn knows_names_and_numbers(rt: HostRuntime) {
    assert!(rt; Wrapper::from_name("$oid") == Some(Wrapper::Oid));
    assert!(rt; Wrapper::Code.is_code() && names_code("$code"));
    assert!(rt; Wrapper::Scope.is_scope() && names_scope("$scope"));
    assert!(rt; whole("-5") == Some(-5));
    // It fits no type.
    assert!(rt; is_whole_number(b"99999999999999999999"));
    let number = bare_number("2147483648").expect(&rt, "a number");
    assert!(rt; matches!(number, Value::Int64(2_147_483_648)));
}

#[test]
fn takes_a_part_apart(rt: HostRuntime) {
    let mut scratch = Scratch::new(rt.alloc());
    let text = r#"{"i":{"$numberLong":2},"t":1}"#;
    let part = Json::parse(rt.alloc(), text, &mut scratch).expect(&rt, text);
    let (first, second) = pair(&part, "t", "i").expect(&rt, "two values");
    assert!(rt; number_of(first) == Some("1"));
    let inside = only(second, "$numberLong").expect(&rt, "one value");
    assert!(rt; number_of(inside) == Some("2"));
}

#[test]
fn unwraps_a_part(rt: HostRuntime) {
    let mut scratch = Scratch::new(rt.alloc());
    let text = r#"{"i":2,"t":1}"#;
    let part = Json::parse(rt.alloc(), text, &mut scratch).expect(&rt, text);
    let stamp = unwrap_single(rt.alloc(), Wrapper::Timestamp, &part).expect(&rt, text);
    let is_stamp = matches!(
        stamp,
        Value::Timestamp {
            seconds: 1,
            increment: 2
        }
    );
    assert!(rt; is_stamp);
}

#[test]
fn reads_a_wrapper(rt: HostRuntime) {
    let mut scratch = Scratch::new(rt.alloc());
    let mut reader = Reader::new(r#"{"$minKey":1}"#, &mut scratch).expect(&rt, "a reader");
    let _ = reader.next();
    let name = reader.next_key().expect(&rt, "a name");
    let wrapper = name.and_then(Wrapper::from_name).expect(&rt, "a wrapper");
    let least = read_wrapper(rt.alloc(), &mut reader, wrapper, MOST_LEVELS, MOST_BRACKETS);
    assert!(rt; matches!(least, Ok(Value::MinKey)));
}
