//! The examples of use in the roots of `bd_wide_advice`, `bd_wide_number`, `bd_wide_text`, `bd_wide`, `bd_wide_dump`, `bd_wide_layout`,
//! `bd_wide_find`, `bd_wide_service` and `bd_wide_cli`, and runs of `bd_wide_cli`.
use bd_bson_check::{Profile, check_bytes};
use bd_bson_view::ElementType;
use bd_cli_args::{FindOptions, Form, LayoutOptions, WideOrder, WordsFault};
use bd_cli_scan::Status;
use bd_extjson_fault::{JsonFault, JsonFaultKind};
use bd_io_device::{MemoryInput, MemoryOutput};
use bd_wide::number_in;
use bd_wide_advice::advice_at;
use bd_wide_cli::{file_of, is_serve, parse, report, run, version};
use bd_wide_dump::{JsonFormat, WideTextBuffer};
use bd_wide_find::find::find;
use bd_wide_layout::{JsonLayout, Layout, LayoutBuffer, go_together, read_layout};
use bd_wide_number::{Number, code_of};
use bd_wide_service::serve::serve;
use bd_wide_text::write_double;
use std::test::Fail;

#[test]
fn code(rt: HostRuntime) {
    assert!(rt; code_of(Number::Double(0x3fe0_0000_0000_0000)) == Some(0x3fe0_0000_0000_0000));
    assert!(rt; code_of(Number::Whole(1)) == Some(0x3ff0_0000_0000_0000));
    assert!(rt; code_of(Number::Whole(0x7fff_ffff_ffff_ffff)) == None);
}

#[test]
fn advised(rt: HostRuntime) {
    let fault = JsonFault {
        kind: JsonFaultKind::Syntax,
        at: 7,
    };
    let advice = advice_at(b"{\"_id\":ObjectId(\"65f0\")}", fault);
    assert!(rt; advice == Some("write {\"$oid\":\"..\"}"));
}

#[test]
fn double_text(rt: HostRuntime) -> Result<(), Fail> {
    let alloc = rt.alloc();
    let mut text = Vec::new(alloc);
    write_double(0x3ff8_0000_0000_0000, &mut text)?;
    assert!(rt; text.as_slice() == b"1.5".as_slice());
    Ok(())
}

#[tactic(auto, unfolding(bd_wide::specs::Rewritten::least))]
#[test]
fn number(rt: HostRuntime) {
    // the double 1.5
    let number = number_in(ElementType::Double, b"\0\0\0\0\0\0\xf8\x3f");
    assert!(rt; matches!(number, Some(Number::Double(0x3ff8_0000_0000_0000))));
}

#[test]
fn all_types(rt: HostRuntime) -> Result<(), Fail> {
    let alloc = rt.alloc();
    let bytes = b"\x10\0\0\0\x01d\0\0\0\0\0\0\0\xf8\x3f\0";
    check_bytes(alloc, Profile::All, bytes, 0, 0)?;
    let mut lines = WideTextBuffer::new(alloc);
    let line = lines.line(JsonFormat::Canonical, bytes)?;
    assert!(rt; line == b"{\"d\":{\"$numberDouble\":\"1.5\"}}\n".as_slice());
    Ok(())
}

#[test]
fn dumped(rt: HostRuntime) -> Result<(), Fail> {
    let alloc = rt.alloc();
    let mut input = MemoryInput::new(b"\x05\0\0\0\0", 100, None);
    let mut commands = MemoryInput::new(b"", 1, None);
    let mut buffer = [0; 100];
    let mut out = MemoryOutput::new(&mut buffer, 100, None);
    let mut reported = [0; 100];
    let mut err = MemoryOutput::new(&mut reported, 100, None);
    let mut words = Vec::new(alloc);
    words.push(String::from_str(alloc, "dump")?)?;
    words.push(String::from_str(alloc, "people.bson")?)?;
    let order = parse(alloc, &words)?;
    assert!(rt; file_of(&order) == "people.bson");
    let status = run(
        alloc,
        &order,
        None,
        &mut input,
        &mut commands,
        &mut out,
        &mut err,
    );
    assert!(rt; status == Status::Done);
    assert!(rt; out.bytes() == b"{}\n".as_slice());
    Ok(())
}

#[test]
fn packed(rt: HostRuntime) {
    let alloc = rt.alloc();
    let mut input = MemoryInput::new(b"{\"d\":1.5}\n", 100, None);
    let mut commands = MemoryInput::new(b"", 1, None);
    let mut buffer = [0; 100];
    let mut out = MemoryOutput::new(&mut buffer, 100, None);
    let mut reported = [0; 100];
    let mut err = MemoryOutput::new(&mut reported, 100, None);
    let status = run(
        alloc,
        &WideOrder::Pack {
            file: String::new(alloc),
        },
        None,
        &mut input,
        &mut commands,
        &mut out,
        &mut err,
    );
    assert!(rt; status == Status::Done);
    let bytes = b"\x10\0\0\0\x01d\0\0\0\0\0\0\0\xf8\x3f\0";
    assert!(rt; out.bytes() == bytes.as_slice());
    assert!(rt; err.bytes() == b"1 objects packed\n".as_slice());
}

/// A session over a dump with a double.
#[test]
fn served(rt: HostRuntime) {
    let alloc = rt.alloc();
    let bytes = b"\x10\0\0\0\x01d\0\0\0\0\0\0\0\xf8\x3f\0";
    let mut input = MemoryInput::new(bytes, 100, None);
    let mut commands = MemoryInput::new(b"{\"explain\":{\"d\":{\"$gt\":1}}}\n", 100, None);
    let mut buffer = [0; 200];
    let mut out = MemoryOutput::new(&mut buffer, 200, None);
    let mut reported = [0; 100];
    let mut err = MemoryOutput::new(&mut reported, 100, None);
    let order = WideOrder::Serve {
        file: String::new(alloc),
        by_value: false,
    };
    let status = run(
        alloc,
        &order,
        None,
        &mut input,
        &mut commands,
        &mut out,
        &mut err,
    );
    assert!(rt; status == Status::Done);
    assert!(rt;
        out.bytes()
            .ends_with(b"\"matches\":{\"$numberLong\":\"1\"}}\n")
    );
    assert!(rt; is_serve(&order));
}

/// The output for `--help` and for `--version`.
#[test]
fn reports(rt: HostRuntime) {
    let usage =
        "usage: bsonwide dump FILE [--type TYPE] [--jsonFormat FORMAT] [--jsonArray] [--pretty] [--fields FIELDS] [--noId] [--noHeaderLine]
       bsonwide check FILE
       bsonwide pack FILE
       bsonwide find FILE [--query Q | --queryFile FILE] [--sort S] [--skip N] [--limit N] [--batch N] [--index PATH] [--after TOKEN] [--type TYPE] [--jsonFormat FORMAT] [--jsonArray] [--pretty] [--fields FIELDS] [--noId] [--noHeaderLine] [--bson | --count]
       bsonwide serve FILE [--byValue]
";
    let mut buffer = [0; 700];
    let mut out = MemoryOutput::new(&mut buffer, 700, None);
    let mut err = MemoryOutput::new(&mut [], 1, None);
    assert!(rt; report(&WordsFault::Help, &mut out, &mut err) == Status::Done);
    assert!(rt; out.bytes() == usage.as_bytes());
    assert!(rt; version() == "bsonwide 0.1.0\n");
}

/// The second of the texts in an array.
#[test]
fn in_an_array(rt: HostRuntime) -> Result<(), Fail> {
    let alloc = rt.alloc();
    let layout = Layout::Json(JsonLayout {
        format: JsonFormat::Relaxed,
        paths: None,
        is_array: true,
        is_pretty: false,
    });
    let bytes = b"\x05\0\0\0\0";
    check_bytes(alloc, Profile::All, bytes, 0, 0)?;
    let mut buffer = LayoutBuffer::new(alloc);
    let piece = buffer.piece(alloc, &layout, 1, bytes)?;
    assert!(rt; piece == b",{}".as_slice());
    Ok(())
}

/// The header and a row of CSV.
#[test]
fn as_csv(rt: HostRuntime) -> Result<(), Fail> {
    let alloc = rt.alloc();
    let options = LayoutOptions {
        output: Some(String::from_str(alloc, "csv")?),
        format: None,
        fields: Some(String::from_str(alloc, "d,e")?),
        no_id: false,
        no_header: false,
        is_array: false,
        is_pretty: false,
    };
    assert!(rt; go_together(&options));
    let Some(layout) = read_layout(alloc, &options)? else {
        return Err(Fail::new("no layout"));
    };
    assert!(rt; layout.opening() == b"d,e\n".as_slice());
    let bytes = b"\x10\0\0\0\x01d\0\0\0\0\0\0\0\xf8\x3f\0";
    check_bytes(alloc, Profile::All, bytes, 0, 0)?;
    let mut buffer = LayoutBuffer::new(alloc);
    let piece = buffer.piece(alloc, &layout, 0, bytes)?;
    assert!(rt; piece == b"1.5,\n".as_slice());
    Ok(())
}

/// Numbers are found by value, whatever their types.
#[test]
fn find_by_value(rt: HostRuntime) -> Result<(), Fail> {
    let alloc = rt.alloc();
    // {"a":1.5}, {"a":2}
    let bytes = b"\x10\0\0\0\x01a\0\0\0\0\0\0\0\xf8\x3f\0\x0c\0\0\0\x10a\0\x02\0\0\0\0";
    let options = FindOptions {
        query: None,
        sort: None,
        skip: 0,
        limit: 0,
        batch: None,
        index: None,
        after: None,
    };
    let layout = Layout::Json(JsonLayout {
        format: JsonFormat::Canonical,
        paths: None,
        is_array: false,
        is_pretty: false,
    });
    let mut file = MemoryInput::new(bytes, 28, None);
    let mut buffer = [0; 100];
    let mut out = MemoryOutput::new(&mut buffer, 100, None);
    let mut reported = [0; 200];
    let mut err = MemoryOutput::new(&mut reported, 200, None);
    let status = find(
        alloc,
        "bsonwide",
        &layout,
        Form::Lines,
        b"{\"a\":{\"$lt\":1.75}}",
        &options,
        &mut file,
        &mut out,
        &mut err,
    );
    assert!(rt; status == Status::Done);
    assert!(rt; out.bytes() == b"{\"a\":{\"$numberDouble\":\"1.5\"}}\n".as_slice());
    Ok(())
}

/// Numbers are compared by value, whatever their types.
#[test]
fn serve_by_value(rt: HostRuntime) {
    let alloc = rt.alloc();
    // {"a":1.5}, {"a":2}
    let bytes = b"\x10\0\0\0\x01a\0\0\0\0\0\0\0\xf8\x3f\0\x0c\0\0\0\x10a\0\x02\0\0\0\0";
    let commands = b"{\"explain\":{\"a\":{\"$lt\":1.75}}}\n";
    let mut file = MemoryInput::new(bytes, 28, None);
    let mut commands = MemoryInput::new(commands, 40, None);
    let mut buffer = [0; 200];
    let mut out = MemoryOutput::new(&mut buffer, 200, None);
    let mut reported = [0; 100];
    let mut err = MemoryOutput::new(&mut reported, 100, None);
    let status = serve(
        alloc,
        "bsonwide",
        false,
        &mut file,
        &mut commands,
        &mut out,
        &mut err,
    );
    assert!(rt; status == Status::Done);
    assert!(rt;
        out.bytes()
            .ends_with(b"\"matches\":{\"$numberLong\":\"1\"}}\n")
    );
}
