//! The output for arguments that are not a command.
use bd_cli::report;
use bd_cli_args::{USAGE, WordsFault};
use bd_cli_scan::Status;
use bd_io_device::MemoryOutput;

#[test]
fn reports_words(rt: HostRuntime) {
    let unwritten = "bsonfind: cannot write\n";
    for (fault, size, out, err, status) in [
        (WordsFault::Help, 400, USAGE, "", Status::Done),
        (WordsFault::Help, 3, "usa", unwritten, Status::Failed),
        (WordsFault::Usage, 400, "", USAGE, Status::Usage),
        (
            WordsFault::NoMemory,
            400,
            "",
            "bsonfind: no memory\n",
            Status::Failed,
        ),
    ] {
        let mut out_buffer = [0; 400];
        let mut err_buffer = [0; 400];
        let mut output = MemoryOutput::new(&mut out_buffer[..size], 400, None);
        let mut error = MemoryOutput::new(&mut err_buffer, 400, None);
        assert!(rt; report(&fault, &mut output, &mut error) == status);
        assert!(rt; output.bytes() == out.as_bytes() && error.bytes() == err.as_bytes());
    }
}
