//! `serve` over devices in memory, with outcomes that were worked by hand.
use crate::devices::{BAD_AND_ONE, Command, ONE, order_of};
use bd_cli::run;
use bd_cli_scan::Status;
use bd_io_device::{MemoryInput, MemoryOutput};

/// Lines of 12, 3, 1, 25 and 23 bytes, with their newlines. The last has no newline.
const COMMANDS: &[u8] =
    b"{\"find\":{}}\n \r\n\n{\"getMore\":1,\"batch\":1}\r\n{\"getMore\":1,\"batch\":1}";

/// The replies, of 41, 133 and 83 bytes. The token was made by another program.
const REPLIES: &[u8] = br#"{"ok":true,"cursor":{"$numberLong":"1"}}
{"ok":true,"documents":[{"a":{"$numberInt":"1"}}],"end":true,"token":"AQEAAAAAAAAAAAAAAFDfrHT7xyEvSkJ2TtexnfO4OqxgF4gXR6W1rQY99ieN"}
{"ok":false,"layer":"session","number":{"$numberInt":"6"},"text":"no such cursor"}
"#;

const UNSERVED: &str = "bsonfind: document 0, byte 7, path \"s\": bad string length\n";

/// How many bytes of the replies are written at the end, and how many reads of commands were made. A reply is written before the
/// next line is read.
#[test]
fn serves_commands_in_pieces(rt: HostRuntime) {
    for (dump, most, size, printed, wanted, calls) in [
        // Commands in pieces, and replies.
        (ONE, 1, 100, 257, "", 65),
        (ONE, 2, 1, 257, "", 33),
        (ONE, 12, 7, 257, "", 7),
        (ONE, 41, 41, 257, "", 3),
        (ONE, 100, 100, 257, "", 2),
        // If there is no dump, no command is read.
        (BAD_AND_ONE, 1, 200, 0, UNSERVED, 0),
    ] {
        assert!(rt; most > 0 && size > 0);
        let order = order_of(rt.alloc(), Command::Serve, None);
        let mut file = MemoryInput::new(dump, 5, None);
        let mut commands = MemoryInput::new(COMMANDS, most, None);
        let mut out_buffer = [0; 400];
        let mut err_buffer = [0; 100];
        let mut out = MemoryOutput::new(&mut out_buffer, size, None);
        let mut err = MemoryOutput::new(&mut err_buffer, 100, None);
        let alloc = rt.alloc();
        let status = run(alloc, &order, &mut file, &mut commands, &mut out, &mut err);
        assert!(rt; (status == Status::Done) == wanted.is_empty() && status != Status::Usage);
        assert!(rt;
            REPLIES.starts_with(out.bytes()) && out.bytes().len() == printed,
            "{most} a read, {calls} reads"
        );
        assert!(rt;
            err.bytes() == wanted.as_bytes(),
            "{most} a read, {calls} reads"
        );
        assert!(rt; commands.calls() == calls, "{most} a read, {calls} reads");
    }
}
