//! What a session prints.

use bd_io_device::{MemoryInput, MemoryOutput};
use bd_wide_service::serve::serve;
use std::alloc::{AllocError, Global};

/// What is printed for commands over a dump.
pub(crate) fn replies(
    alloc: Global,
    by_value: bool,
    dump: &[u8],
    commands: &[u8],
) -> Result<Vec<u8>, AllocError> {
    let mut file = MemoryInput::new(dump, 50, None);
    let mut commands = MemoryInput::new(commands, 100, None);
    let mut buffer = [0; 500];
    let mut out = MemoryOutput::new(&mut buffer, 500, None);
    let mut reported = [0; 100];
    let mut err = MemoryOutput::new(&mut reported, 100, None);
    serve(
        alloc,
        "bsonwide",
        by_value,
        &mut file,
        &mut commands,
        &mut out,
        &mut err,
    );
    let mut printed = Vec::new(alloc);
    printed.extend_from_slice(out.bytes())?;
    Ok(printed)
}
