//! Runs over devices in memory, with outcomes that were worked by hand.
use crate::devices::{AMPLE, Command, Devices, ONE, ONE_LINE, order_of, reads};
use bd_cli::Status::{self, Done, Failed};
use bd_io_device::FailingWrite;
use std::test::Fail;

const UNWRITTEN: &str = "bsonfind: cannot write\n";

/// How many reads are made if none fails.
#[test]
fn reads_no_more_than_it_wants(rt: HostRuntime) -> Result<(), Fail> {
    let alloc = rt.alloc();
    let many = b"\x05\0\0\0\0".repeat(alloc, 100)?;
    let order = order_of(alloc, Command::Dump, None);
    let rows: [(&[u8], usize, usize, &[u8], &str, u64, Status); 4] = [
        // The length, the rest, and the end.
        (ONE, 100, 400, ONE_LINE, "1 objects found\n", 3, Done),
        (ONE, 1, 400, ONE_LINE, "1 objects found\n", 13, Done),
        // A device that is full.
        (ONE, 100, 3, b"{\"a", UNWRITTEN, 2, Failed),
        // For a hundred documents, as for any number, five bytes of each of two are read before the second line does not fit.
        (&many, 1, 3, b"{}\n", UNWRITTEN, 10, Failed),
    ];
    for (input, size, buffer, out, err, calls, status) in rows {
        let devices = Devices {
            input,
            size,
            buffer,
            ..AMPLE
        };
        let answer = reads(alloc, &order, devices, out, err);
        assert!(rt; answer == Some((calls, status)), "{calls} reads");
    }
    Ok(())
}

#[test]
fn refuses_a_path_and_leaves_a_count(rt: HostRuntime) -> Result<(), Fail> {
    let alloc = rt.alloc();
    let mut devices = AMPLE;
    // If the path is invalid, nothing is read.
    let find = order_of(alloc, Command::Find, Some(String::from_str(alloc, "a..b")?));
    devices.input = ONE;
    let refusal = "bsonfind: index: empty component\n";
    assert!(rt; reads(alloc, &find, devices, b"", refusal) == Some((0, Failed)));
    // Standard error fails within a line of counts, whose number and text are written separately.
    let pack = order_of(alloc, Command::Pack, None);
    devices.input = b"\n";
    devices.size = 9;
    devices.failing_err = Some(FailingWrite::Error(3));
    assert!(rt; reads(alloc, &pack, devices, b"", "0 objects ") == Some((2, Failed)));
    Ok(())
}
