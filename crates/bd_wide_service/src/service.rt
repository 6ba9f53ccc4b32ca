//! A session over a dump of all types, which replies to each line that it receives.

ghost use Rattle.std.specs.Prelude.{◌≡◌, ◌++◌, OnErr, OnOk, length, map, string_bytes};
ghost use Rattle.bd_bson_dump.specs.Collection.{documents};
ghost use Rattle.bd_cursor.specs.SessionView.{dump_of};
ghost use Rattle.bd_cli_service.specs.Reply.{refuses, reply_text};
ghost use Rattle.bd_wide_copy.specs.Dump.{IsCount, bytes_of};
ghost use Rattle.bd_wide_service.specs.Call.{types_refusal};

use crate::call::{WideCallFault, call_in};
use crate::places::{PlacedLine, line_of, placed_line, reply_numbers};
use bd_cli_service::{Call, LineRefusal, Reply, perform, write_batch, write_refusal, write_reply};
use bd_cursor::Session;
use bd_extjson_text::write_path;
use bd_io_lines::Replier;
use bd_value::NoMemory;
use bd_wide_copy::{Longs, WideDump};
use bd_wide_find::{WidePrinter, coded_copy, table_of};
use bd_wide_rank::Table;
use std::alloc::{AllocError, Global};

/// A session over a dump of all types. What is searched is a copy of the dump, with the codes of a table in place of its numbers.
#[derive(Drop)]
pub(crate) struct WideService {
    alloc: Global,
    dump: WideDump,
    table: Table,
    session: Session,
    ghost counted: { IsCount (bytes_of dump) (length (documents (dump_of session))) },
}

impl WideService {
    ghost use Rattle.std.specs.Prelude.{◌≡◌, ◌++◌, IfOk, List, Ok, OnErr, OnOk, ℕ};
    ghost use Rattle.bd_cursor_model.specs.Laws.{new_state};
    ghost use Rattle.bd_cli_service.specs.Reply.{refuses, reply_text, reported_refusal};
    ghost use Rattle.bd_cli_service.specs.ServiceView.{session_call};
    ghost use Rattle.bd_wide_copy.specs.Dump.{AreDocuments};
    ghost use Rattle.bd_wide_service.specs.{Call.ByValue, Call.IsCallIn};
    ghost use Rattle.bd_wide_service.specs.ServiceView.{IsServiceOver, service_state};
    ghost use Rattle.bd_wide_service.specs.inside.ServiceView.{IsWritten, LacksReplyTo, RepliesTo};

    /// A session with no index and no cursor. It fails only if memory runs out.
    pub(crate) fn new(alloc: Global, dump: WideDump) -> Result<WideService, NoMemory>
        requires documents { AreDocuments (bytes_of dump) }
        ensures over { IfOk result (λ s. (v : ByValue (bytes_of dump)) × IsServiceOver v s) }
        ensures state { IfOk result (λ s. service_state s ≡ new_state) }
    {
        let table = table_of(alloc, &dump)?;
        let copy = coded_copy(alloc, &dump, &table, Longs::none())?;
        Ok(WideService {
            alloc,
            dump,
            table,
            session: Session::new(alloc, copy),
        })
    }

    /// Appends the reply to a line without the field `places`. The session is then in the state after the call in the line.
    fn reply_line(&mut self, line: &[u8], text: &mut Vec<u8>) -> Result<(), NoMemory>
        ensures replies { OnOk result ((reply : List ℕ) × (text.new.items ≡ text.old.items ++ reply)
            × RepliesTo self.old line.now reply self.new) }
        ensures err { OnErr result ((text.new.items ≡ text.old.items)
            × LacksReplyTo self.old line.now self.new) }
    {
        match call_in(self.alloc, line, &self.table) {
            Ok(call) => self.answer(line, call, text),
            Err(WideCallFault::NoMemory) => Err(AllocError),
            Err(WideCallFault::Refused(refusal)) => self.refuse(refusal, text),
            Err(WideCallFault::Types(place)) => write_types(self.alloc, &place, text),
        }
    }

    /// Makes a call that is in the line, and appends the reply to it.
    fn answer(&mut self, line: &[u8], call: Call, text: &mut Vec<u8>) -> Result<(), NoMemory>
        requires call { (bytes : List ℕ) (v : ByValue bytes) → IsServiceOver v self.old →
            IsCallIn v line.now (Ok (session_call (dump_of self.old.session) call)) }
        ensures replies { OnOk result ((reply : List ℕ) × (text.new.items ≡ text.old.items ++ reply)
            × RepliesTo self.old line.now reply self.new) }
        ensures err { OnErr result ((text.new.items ≡ text.old.items)
            × LacksReplyTo self.old line.now self.new) }
    {
        let reply = perform(&mut self.session, call)?;
        self.write(&reply, text)
    }

    /// Appends the text of a reply.
    fn write(&self, reply: &Reply, text: &mut Vec<u8>) -> Result<(), NoMemory>
        ensures ok { OnOk result ((written : List ℕ) × (text.new.items ≡ text.old.items ++ written)
            × IsWritten self.now reply.now written) }
        ensures err { OnErr result (text.new.items ≡ text.old.items) }
    {
        match reply {
            Reply::Gave(batch) => write_batch(
                self.alloc,
                &WidePrinter { dump: &self.dump },
                self.session.dump(),
                batch,
                text,
            ),
            reply => write_reply(self.alloc, self.session.dump(), reply, text),
        }
    }

    /// Appends the reply to a line that is refused.
    fn refuse(&self, refusal: LineRefusal, text: &mut Vec<u8>) -> Result<(), NoMemory>
        ensures ok { OnOk result (text.new.items
            ≡ text.old.items ++ reply_text (refuses (reported_refusal refusal))) }
        ensures err { OnErr result (text.new.items ≡ text.old.items) }
    {
        write_reply(
            self.alloc,
            self.session.dump(),
            &Reply::Refused(refusal),
            text,
        )
    }
}

impl Replier for WideService {
    ghost use Rattle.std.specs.Prelude.{◌≡◌, ◌++◌, List, OnErr, OnOk, ℕ};
    ghost use Rattle.bd_io_lines.specs.Serving.{RunsOutAt};
    ghost use Rattle.bd_wide_service.specs.ServiceView.{LacksSomeReply, RepliesInAll};

    ghost replies = { RepliesInAll };

    ghost stays = { LacksSomeReply };

    /// Appends the reply to a line. The session is then in the state after the call in the line.
    fn reply(&mut self, command: &[u8], text: &mut Vec<u8>) -> Result<(), AllocError>
        ensures replies { OnOk result ((reply : List ℕ) × (text.new.items ≡ text.old.items ++ reply)
            × RepliesInAll self.old command.now reply self.new) }
        ensures err { OnErr result (text.new.items ≡ text.old.items) }
        // If memory runs out, the session is unchanged, or is in the state after the call whose reply could not be made.
        ensures out_of_memory { OnErr result
            (RunsOutAt LacksSomeReply RepliesInAll self.old command.now self.new) }
    {
        match placed_line(self.alloc, command) {
            Err(_) => Err(AllocError),
            Ok(PlacedLine::Absent) => self.reply_line(command, text),
            Ok(PlacedLine::Documents(document)) => match line_of(self.alloc, &document) {
                Ok(line) => self.reply_line(&line, text),
                Err(_) => Err(AllocError),
            },
            Ok(PlacedLine::Numbers { id, batch }) => {
                reply_numbers(self.alloc, &mut self.session, id, batch, text)
            }
            Ok(PlacedLine::Faulty(fault)) => self.refuse(LineRefusal::Command(fault), text),
        }
    }
}

/// Appends the reply to a search with a `$type` of some of the types of numbers at this place. On `NoMemory`, `text` is unchanged.
fn write_types(alloc: Global, place: &[String], text: &mut Vec<u8>) -> Result<(), NoMemory>
    ensures ok { OnOk result (text.new.items
        ≡ text.old.items ++ reply_text (refuses (types_refusal (map string_bytes place.now)))) }
    ensures err { OnErr result (text.new.items ≡ text.old.items) }
{
    let mut reply = Vec::new(alloc);
    write_refusal("numbers", 1, TYPES, &mut reply)?;
    // The place comes before the brace at its end.
    reply.truncate(reply.len() - 1);
    reply.extend_from_slice(b",\"place\":")?;
    write_path(place, &mut reply)?;
    reply.push(b'}')?;
    text.extend_from_slice(&reply)
}

/// Why a search with a `$type` of some of the types of numbers is refused.
const TYPES: &str = "the types of numbers are not told apart here";
