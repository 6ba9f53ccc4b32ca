//! A reply to each command of a device, written before a later read.

ghost use Rattle.std.specs.Prelude.{◌≡◌, ◌++◌, ◌∷◌, [], None, false, IfErr, OnErr, OnOk, IsErrOf, List, ℕ, ◌⊎◌};
ghost use Rattle.bd_io_device.specs.Devices.{WriteFailsWithin, TakesText, over};
ghost use Rattle.bd_io_lines.specs.Lines.{is_empty_line, not_empty};
ghost use Rattle.bd_io_lines.specs.Serving.{RepliesInTurn, ServesAll, RunsOutAt, StopsServing};
ghost use Rattle.bd_io_lines.specs.declared.serving.ServeFault.TheVariants.{NoMemory as out_of_memory, Unread as unread, Unwritten as unwritten};

use crate::line_buffer::LineBuffer;
use bd_io_device::{DeviceFault, Input, Limits, Output, ReadFault, write_all};
use std::alloc::{AllocError, Global};
use thiserror::Error;

/// Replies to commands.
pub trait Replier {
    /// In the first state this command may have this reply, which leads to the second state.
    ghost replies: { Self → List ℕ → List ℕ → Self → Type 0 };

    /// Between the first state and the second no reply was made.
    ghost stays: { Self → Self → Type 0 };

    /// Appends the reply to a command, a line without its newline. If memory runs out, `text` is unchanged, and no more
    /// commands may be passed: the state is unchanged, or is the one after a reply that was not made.
    fn reply(&mut self, command: &[u8], text: &mut Vec<u8>) -> Result<(), AllocError>
        ensures replies { OnOk result ((reply : List ℕ) × (text.new.items ≡ text.old.items ++ reply)
            × replies self.old command.now reply self.new) }
        ensures err { OnErr result (text.new.items ≡ text.old.items) }
        ensures out_of_memory { OnErr result
            (RunsOutAt stays replies self.old command.now self.new) };
}

/// Why not all commands of a device had a reply.
#[derive(Debug, Clone, Copy, Drop, PartialEq, Eq, Error)]
pub enum ServeFault {
    /// The next line was not read.
    #[error("{0}")]
    Unread(ReadFault),
    /// Memory for a reply ran out.
    #[error("no memory")]
    NoMemory,
    /// A reply was not written.
    #[error("cannot write")]
    Unwritten,
}

impl From<ReadFault> for ServeFault {
    ghost from_gives = { λ f s. s ≡ unread f };

    fn from(fault: ReadFault) -> ServeFault {
        ServeFault::Unread(fault)
    }
}

impl From<AllocError> for ServeFault {
    ghost from_gives = { λ _ s. s ≡ out_of_memory };

    fn from(_error: AllocError) -> ServeFault {
        ServeFault::NoMemory
    }
}

impl From<DeviceFault> for ServeFault {
    ghost from_gives = { λ _ s. s ≡ unwritten };

    fn from(_fault: DeviceFault) -> ServeFault {
        ServeFault::Unwritten
    }
}

/// Writes the reply to a line, if it is a command. `text` is a buffer that the lines share.
#[tactic(auto, using(crate::proofs::ServingLemmas::replied_none, crate::proofs::ServingLemmas::replied_one, bd_io_device::proofs::DevicesLemmas::takes_none))]
fn reply_to_line<O: Output, S: Replier>(
    line: &[u8],
    session: &mut S,
    text: &mut Vec<u8>,
    out: &mut O,
) -> Result<(), ServeFault>
    ensures replied { OnOk result ((written : List ℕ)
        × RepliesInTurn S.replies session.old (not_empty (line.now ∷ [])) written session.new
        × TakesText (over O.state out.old out.new) written) }
    ensures out_of_memory { IsErrOf result ServeFault.NoMemory → (is_empty_line line.now ≡ false)
        × (out.new ≡ out.old) × RunsOutAt S.stays S.replies session.old line.now session.new }
    ensures failed_write { IsErrOf result ServeFault.Unwritten → (is_empty_line line.now ≡ false)
        × ((reply : List ℕ) × S.replies session.old line.now reply session.new
        × WriteFailsWithin (over O.state out.old out.new) (reply ++ 10 ∷ [])) }
    ensures read { IfErr result (λ f. (f ≡ ServeFault.NoMemory) ⊎ (f ≡ ServeFault.Unwritten)) }
{
    if is_empty_line(line) {
        return Ok(());
    }
    text.clear();
    session.reply(line, text)?;
    if text.push(b'\n').is_err() {
        return Err(ServeFault::NoMemory);
    }
    Ok(write_all(out, text)?)
}

/// Writes a reply to each command of a device: to each line that is not white space alone, in order.
///
/// Each reply ends with a newline, and is written before the device is read for a later line.
///
/// # Errors
/// The replies to the commands before the error are written.
/// - `ServeFault::Unread`: a line was not read; the causes are those of `LineBuffer::read_next`;
/// - `ServeFault::NoMemory`: memory for a reply ran out, and nothing of it is written; for the state see `Replier::reply`;
/// - `ServeFault::Unwritten`: a write failed, and a prefix of the reply was written. No line is read after it.
pub fn reply_to_lines<R: Input, O: Output, S: Replier>(
    alloc: Global,
    limits: Limits,
    reader: &mut R,
    session: &mut S,
    out: &mut O,
) -> Result<(), ServeFault>
    ensures serves { OnOk result ((text : List ℕ) × ServesAll R.state R.read_gives S.replies
        limits reader.old reader.new session.old text session.new
        × TakesText (over O.state out.old out.new) text) }
    ensures stops { IfErr result (StopsServing R.state R.read_gives S.replies limits
        reader.old reader.new (over O.state out.old out.new) session.old session.new S.stays) }
{
    let mut lines = LineBuffer::new(alloc, limits);
    let mut text = Vec::new(alloc);
    while lines.read_next(reader)? {
        reply_to_line(lines.line(), session, &mut text, out)?;
    }
    Ok(())
}

/// Whether a line is empty, or white space alone: spaces, tabs and carriage returns. It takes no memory.
pub fn is_empty_line(line: &[u8]) -> bool
    ensures { result ≡ is_empty_line line.now }
{
    line.iter().all(|byte| matches!(byte, b' ' | b'\t' | b'\r'))
}
