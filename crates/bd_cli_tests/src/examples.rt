//! The examples of use in the roots of `bd_cli`, `bd_cli_args`, `bd_cli_main`, `bd_cli_print`, `bd_cli_scan`, `bd_cli_files` and
//! `bd_cli_find`.
use bd_bson_dump::read_dump;
use bd_cli::run;
use bd_cli_args::{FindOptions, Order, WideOrder, WordsFault, parse_wide_words, parse_words};
use bd_cli_files::pack::pack;
use bd_cli_find::find::find;
use bd_cli_main::{is_standard_input, report, requests_version};
use bd_cli_print::{NamedPrinter, PlacePrinter};
use bd_cli_scan::Status;
use bd_cli_scan::check::check;
use bd_io_device::{MemoryInput, MemoryOutput};
use std::test::Fail;

#[test]
fn check_a_dump(rt: HostRuntime) {
    let alloc = rt.alloc();
    let mut file = MemoryInput::new(b"\x05\0\0\0\0", 5, None);
    let mut buffer = [0; 100];
    let mut out = MemoryOutput::new(&mut [], 1, None);
    let mut err = MemoryOutput::new(&mut buffer, 100, None);
    let status = check(alloc, "bsonfind", &mut file, &mut out, &mut err);
    assert!(rt; status == Status::Done);
    assert!(rt; err.bytes() == b"1 documents, 0 faulty\n".as_slice());
}

#[test]
fn pack_a_text(rt: HostRuntime) {
    let alloc = rt.alloc();
    let mut file = MemoryInput::new(b"{}\n", 3, None);
    let mut packed = [0; 5];
    let mut buffer = [0; 100];
    let mut out = MemoryOutput::new(&mut packed, 5, None);
    let mut err = MemoryOutput::new(&mut buffer, 100, None);
    let status = pack(alloc, "bsonfind", &mut file, &mut out, &mut err);
    assert!(rt; status == Status::Done);
    assert!(rt; out.bytes() == b"\x05\0\0\0\0".as_slice());
}

#[test]
fn find_in_a_dump(rt: HostRuntime) -> Result<(), Fail> {
    let alloc = rt.alloc();
    let options = FindOptions {
        query: Some(String::from_str(alloc, "{\"a\":1}")?),
        sort: None,
        skip: 0,
        limit: 0,
        batch: None,
        index: None,
        after: None,
    };
    let mut file = MemoryInput::new(b"\x05\0\0\0\0", 5, None);
    let mut buffer = [0; 100];
    let mut out = MemoryOutput::new(&mut [], 1, None);
    let mut err = MemoryOutput::new(&mut buffer, 100, None);
    let status = find(alloc, "bsonfind", &options, &mut file, &mut out, &mut err);
    assert!(rt; status == Status::Done);
    assert!(rt; err.bytes() == b"0 documents, end\n".as_slice());
    Ok(())
}

#[test]
fn print_a_document(rt: HostRuntime) -> Result<(), Fail> {
    let alloc = rt.alloc();
    let dump = read_dump(alloc, vec![in alloc; 5, 0, 0, 0, 0]?)?;
    let mut buffer = Vec::new(alloc);
    let end = NamedPrinter.append(&dump, 0, &mut buffer, 0)?;
    assert!(rt; &buffer[..end] == b"{}".as_slice());
    Ok(())
}

#[test]
fn cli(rt: HostRuntime) -> Result<(), Fail> {
    let alloc = rt.alloc();
    let order = Order::Check {
        file: String::from_str(alloc, "-")?,
    };
    let mut file = MemoryInput::new(b"\x05\0\0\0\0", 5, None);
    let mut commands = MemoryInput::new(b"", 1, None);
    let mut buffer = [0; 100];
    let mut out = MemoryOutput::new(&mut [], 1, None);
    let mut err = MemoryOutput::new(&mut buffer, 100, None);
    let status = run(alloc, &order, &mut file, &mut commands, &mut out, &mut err);
    assert!(rt; status == Status::Done);
    assert!(rt; err.bytes() == b"1 documents, 0 faulty\n".as_slice());
    Ok(())
}

#[test]
fn command_line(rt: HostRuntime) -> Result<(), Fail> {
    let alloc = rt.alloc();
    let words = [
        String::from_str(alloc, "dump")?,
        String::from_str(alloc, "-")?,
    ];
    let order = parse_words(alloc, &words);
    assert!(rt; matches!(order, Ok(Order::Dump { .. })));
    Ok(())
}

#[test]
fn help(rt: HostRuntime) {
    let mut buffer = [0; 100];
    let mut out = MemoryOutput::new(&mut buffer, 100, None);
    let mut err = MemoryOutput::new(&mut [], 1, None);
    let usage = "usage: bsonfind dump FILE\n";
    let status = report("bsonfind", usage, &WordsFault::Help, &mut out, &mut err);
    assert!(rt; status == Status::Done);
    assert!(rt; out.bytes() == usage.as_bytes());
}

/// What arguments say without a parser, and a command of `bsonwide`.
#[test]
fn other_words(rt: HostRuntime) -> Result<(), Fail> {
    let alloc = rt.alloc();
    let version = [String::from_str(alloc, "--version")?];
    assert!(rt; requests_version(&version) && !requests_version(&[]));
    assert!(rt; is_standard_input("-") && !is_standard_input("./-"));
    let words = [
        String::from_str(alloc, "serve")?,
        String::from_str(alloc, "a.bson")?,
        String::from_str(alloc, "--byValue")?,
    ];
    let order = parse_wide_words(alloc, &words);
    assert!(rt; matches!(&order, Ok(WideOrder::Serve { by_value: true, .. })));
    assert!(rt; matches!(parse_wide_words(alloc, &version), Err(WordsFault::Usage)));
    Ok(())
}

/// A session of `bsonwide` has a file, which is not standard input.
#[test]
fn wide_session(rt: HostRuntime) -> Result<(), Fail> {
    let alloc = rt.alloc();
    let mut words = Vec::new(alloc);
    words.push(String::from_str(alloc, "serve")?)?;
    words.push(String::from_str(alloc, "--")?)?;
    words.push(String::from_str(alloc, "a.bson")?)?;
    assert!(rt;
        matches!(
            parse_wide_words(alloc, &words),
            Ok(WideOrder::Serve {
                by_value: false,
                ..
            })
        )
    );
    words.truncate(2);
    words.push(String::from_str(alloc, "-")?)?;
    assert!(rt; matches!(parse_wide_words(alloc, &words), Err(WordsFault::Usage)));
    Ok(())
}
