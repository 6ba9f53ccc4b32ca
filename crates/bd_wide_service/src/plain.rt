//! A session over a dump without doubles and decimal128, which replies to each line that it receives.

ghost use Rattle.std.specs.Prelude.{◌≡◌, ◌++◌, List, OnErr, OnOk, ℕ};
ghost use Rattle.bd_bson_dump.specs.declared.collection.Dump.{Dump};
ghost use Rattle.bd_cursor_model.specs.Laws.{new_state};
ghost use Rattle.bd_io_lines.specs.Serving.{RunsOutAt};
ghost use Rattle.bd_wide_service.specs.ServiceView.{LacksPlain, RepliesInPlain, plain_dump, plain_state};
ghost use Rattle.bd_wide_service.specs.inside.ServiceView.{RepliesPlainly};

use crate::places::{PlacedLine, line_of, placed_line, reply_numbers};
use bd_bson_dump::Dump;
use bd_cli_service::{LineRefusal, Reply, reply_to, write_reply};
use bd_cursor::Session;
use bd_io_lines::Replier;
use bd_value::NoMemory;
use std::alloc::{AllocError, Global};

/// A session over a dump. It replies as that of `bsonfind serve`, and also to the field `places`.
#[derive(Drop)]
pub(crate) struct PlainService {
    alloc: Global,
    session: Session,
}

impl PlainService {
    /// A session with no index and no cursor. It takes no memory.
    pub(crate) fn new(alloc: Global, dump: Dump) -> PlainService
        ensures state { plain_state result ≡ new_state }
        ensures dump { plain_dump result ≡ dump }
    {
        PlainService {
            alloc,
            session: Session::new(alloc, dump),
        }
    }

    /// Appends the reply to a line without the field `places`.
    fn reply_line(&mut self, line: &[u8], text: &mut Vec<u8>) -> Result<(), NoMemory>
        ensures replies { OnOk result ((reply : List ℕ) × (text.new.items ≡ text.old.items ++ reply)
            × RepliesPlainly self.old line.now reply self.new) }
        ensures err { OnErr result ((text.new.items ≡ text.old.items)
            × LacksPlain self.old self.new) }
        ensures dump { plain_dump self.new ≡ plain_dump self.old }
    {
        let reply = reply_to(self.alloc, &mut self.session, line)?;
        write_reply(self.alloc, self.session.dump(), &reply, text)
    }
}

impl Replier for PlainService {
    ghost replies = { RepliesInPlain };

    ghost stays = { LacksPlain };

    /// Appends the reply to a line. The session is then in the state after the call in the line.
    fn reply(&mut self, command: &[u8], text: &mut Vec<u8>) -> Result<(), AllocError>
        ensures replies { OnOk result ((reply : List ℕ) × (text.new.items ≡ text.old.items ++ reply)
            × RepliesInPlain self.old command.now reply self.new) }
        ensures err { OnErr result (text.new.items ≡ text.old.items) }
        // If memory runs out, the session is unchanged, or is in the state after the call whose reply could not be made.
        ensures out_of_memory { OnErr result
            (RunsOutAt LacksPlain RepliesInPlain self.old command.now self.new) }
    {
        match placed_line(self.alloc, command) {
            Err(_) => Err(AllocError),
            Ok(PlacedLine::Absent) => self.reply_line(command, text),
            Ok(PlacedLine::Documents(document)) => match line_of(self.alloc, &document) {
                Ok(line) => self.reply_line(&line, text),
                Err(_) => Err(AllocError),
            },
            Ok(PlacedLine::Numbers { id, batch }) => {
                reply_numbers(self.alloc, &mut self.session, id, batch, text)
            }
            Ok(PlacedLine::Faulty(fault)) => write_reply(
                self.alloc,
                self.session.dump(),
                &Reply::Refused(LineRefusal::Command(fault)),
                text,
            ),
        }
    }
}
