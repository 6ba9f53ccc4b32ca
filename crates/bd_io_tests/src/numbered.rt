//! A replier that numbers the commands.
ghost use Rattle.std.specs.Prelude.{◌≡◌, ◌∷◌, ℕ, List};

use bd_io_lines::Replier;
use std::alloc::AllocError;

/// Replies with a digit, which counts the commands, and the command.
#[derive(Drop)]
pub struct Numbered {
    /// The digit of the next reply.
    pub digit: u8,
    /// The digit of the reply at which memory runs out.
    pub last: u8,
}

impl Replier for Numbered {
    ghost replies = { λ s command reply t. reply ≡ s.digit ∷ command };

    ghost stays = { λ s t. t ≡ s };

    fn reply(&mut self, command: &[u8], text: &mut Vec<u8>) -> Result<(), AllocError> {
        if self.digit == self.last {
            return Err(AllocError);
        }
        let before = text.len();
        text.extend_from_slice(&[self.digit])?;
        if text.extend_from_slice(command).is_err() {
            text.truncate(before);
            return Err(AllocError);
        }
        self.digit = self.digit.saturating_add(1);
        Ok(())
    }
}
