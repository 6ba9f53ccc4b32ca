//! The documents of batches.

use bd_cli_scan::Status;
use bd_io_device::{MemoryInput, MemoryOutput};
use bd_wide_service::serve::serve;

/// The documents of a batch are those of the dump.
#[test]
fn documents_of_the_dump(rt: HostRuntime) {
    let alloc = rt.alloc();
    // {"a":1.5}, {"a":2}
    let bytes = b"\x10\0\0\0\x01a\0\0\0\0\0\0\0\xf8\x3f\0\x0c\0\0\0\x10a\0\x02\0\0\0\0";
    let commands = b"{\"find\":{\"a\":{\"$lt\":1.75}}}\n{\"getMore\":1,\"batch\":2}\n";
    let wanted = b"{\"ok\":true,\"cursor\":{\"$numberLong\":\"1\"}}
{\"ok\":true,\"documents\":[{\"a\":{\"$numberDouble\":\"1.5\"}}],\"end\":true,\"token\":\"";
    let mut file = MemoryInput::new(bytes, 28, None);
    let mut commands = MemoryInput::new(commands, 60, None);
    let mut buffer = [0; 300];
    let mut out = MemoryOutput::new(&mut buffer, 300, None);
    let mut reported = [0; 100];
    let mut err = MemoryOutput::new(&mut reported, 100, None);
    let status = serve(
        alloc,
        "bsonwide",
        false,
        &mut file,
        &mut commands,
        &mut out,
        &mut err,
    );
    assert!(rt; status == Status::Done);
    assert!(rt; out.bytes().starts_with(wanted));
}

/// Over a dump without doubles and decimal128 a double in a command is refused; over any other some types of numbers are.
#[test]
fn refused_commands(rt: HostRuntime) {
    let alloc = rt.alloc();
    let plain = b"\x0c\0\0\0\x10a\0\x02\0\0\0\0";
    let wide = b"\x10\0\0\0\x01a\0\0\0\0\0\0\0\xf8\x3f\0";
    let profile =
        b"{\"ok\":false,\"layer\":\"json\",\"number\":{\"$numberInt\":\"5\"},\"text\":\"not in the profile\",\"at\":{\"$numberLong\":\"13\"}}\n";
    let types =
        b"{\"ok\":false,\"layer\":\"numbers\",\"number\":{\"$numberInt\":\"1\"},\"text\":\"the types of numbers are not told apart here\",\"place\":\"a.$type\"}\n";
    for (bytes, command, wanted) in [
        (
            plain.as_slice(),
            b"{\"find\":{\"a\":1.5}}\n".as_slice(),
            profile.as_slice(),
        ),
        (
            wide.as_slice(),
            b"{\"find\":{\"a\":{\"$type\":1}}}\n".as_slice(),
            types.as_slice(),
        ),
    ] {
        let mut file = MemoryInput::new(bytes, 20, None);
        let mut commands = MemoryInput::new(command, 40, None);
        let mut buffer = [0; 200];
        let mut out = MemoryOutput::new(&mut buffer, 200, None);
        let mut reported = [0; 100];
        let mut err = MemoryOutput::new(&mut reported, 100, None);
        let status = serve(
            alloc,
            "bsonwide",
            false,
            &mut file,
            &mut commands,
            &mut out,
            &mut err,
        );
        assert!(rt; status == Status::Done);
        assert!(rt; out.bytes() == wanted);
    }
}

/// Of a dump with a fault only the fault is printed, and no command is read.
#[test]
fn faulty_dump(rt: HostRuntime) {
    let alloc = rt.alloc();
    // {"a":1.5}, and a boolean of 2
    let bytes = b"\x10\0\0\0\x01a\0\0\0\0\0\0\0\xf8\x3f\0\x09\0\0\0\x08a\0\x02\0";
    let mut file = MemoryInput::new(bytes, 28, None);
    let mut commands = MemoryInput::new(b"{\"find\":{}}\n", 40, None);
    let mut out = MemoryOutput::new(&mut [], 1, None);
    let mut reported = [0; 100];
    let mut err = MemoryOutput::new(&mut reported, 100, None);
    let status = serve(
        alloc,
        "bsonwide",
        false,
        &mut file,
        &mut commands,
        &mut out,
        &mut err,
    );
    assert!(rt; status == Status::Failed);
    assert!(rt;
        err.bytes() == b"bsonwide: document 1, byte 23, path \"a\": bad boolean\n".as_slice()
    );
}
