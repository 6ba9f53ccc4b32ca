//! A session that replies to lines.

ghost use Rattle.std.specs.Prelude.{◌≡◌, ◌++◌, IfErr, IfOk, OnErr, OnOk, List, ℕ};
ghost use Rattle.bd_value.specs.{View.pairs};
ghost use Rattle.bd_cursor_model.specs.{Laws.new_state};
ghost use Rattle.bd_bson_dump.specs.Collection.{bytes_of, documents};
ghost use Rattle.bd_bson_dump.specs.declared.collection.Dump.{Dump};
ghost use Rattle.bd_cursor_request.specs.Refused.{error_as};
ghost use Rattle.bd_cursor.specs.SessionView.{dump_of, state_of};
ghost use Rattle.bd_io_lines.specs.Serving.{RunsOutAt};
ghost use Rattle.bd_cli_command.specs.{Command.command_tree, CommandOf.command_of};
ghost use Rattle.bd_cli_service.specs.Reply.{command_refusal, line_reply};
ghost use Rattle.bd_cli_service.specs.ServiceView.{IsPerformed, KeepsState, RefusesPart, RepliesTo, service_dump, service_state, session_call};
ghost use Rattle.bd_cli_service.specs.inside.ServiceView.{IsAnswered};
ghost use Rattle.bd_cli_service.specs.Talk.{Answers, call_in, line_document};

use crate::call::{Call, CallFault, call_of};
use crate::reply::{LineRefusal, Reply, write_reply};
use bd_bson_dump::Dump;
use bd_cli_command::{Command, CommandFault, read_command};
use bd_cursor::Session;
use bd_cursor_request::Refused;
use bd_extjson::read_doc;
use bd_extjson_fault::JsonFaultKind;
use bd_io_lines::Replier;
use bd_value::{Document, NoMemory};
use std::alloc::{AllocError, Global};

/// A session over a dump, with a reply to each line.
#[derive(Drop)]
pub struct Service {
    alloc: Global,
    session: Session,
}

impl Service {
    /// A session with no index and no cursor. It takes no memory.
    pub fn new(alloc: Global, dump: Dump) -> Service
        ensures state { service_state result ≡ new_state }
        ensures dump { service_dump result ≡ dump }
    {
        Service {
            alloc,
            session: Session::new(alloc, dump),
        }
    }
}

impl Replier for Service {
    ghost replies = { RepliesTo };

    ghost stays = { KeepsState };

    /// Appends the reply to a line. The session is then in the state after the call in the line.
    fn reply(&mut self, command: &[u8], text: &mut Vec<u8>) -> Result<(), AllocError>
        ensures replies { OnOk result ((reply : List ℕ) × (text.new.items ≡ text.old.items ++ reply)
            × RepliesTo self.old command.now reply self.new) }
        ensures err { OnErr result (text.new.items ≡ text.old.items) }
        // If memory runs out, the session is unchanged, or is in the state after the call whose reply could not be made.
        ensures out_of_memory { OnErr result
            (RunsOutAt KeepsState RepliesTo self.old command.now self.new) }
        ensures dump { service_dump self.new ≡ service_dump self.old }
    {
        let reply = reply_to(self.alloc, &mut self.session, command)?;
        write_reply(self.alloc, self.session.dump(), &reply, text)
    }
}

/// The reply to a line. It fails only if memory runs out, and then the session is unchanged.
pub fn reply_to(alloc: Global, session: &mut Session, line: &[u8]) -> Result<Reply, NoMemory>
    ensures answers { IfOk result (λ r. Answers (bytes_of (dump_of session.old))
        (documents (dump_of session.old)) (state_of session.old) line.now
        (line_reply (documents (dump_of session.old)) r) (state_of session.new)) }
    ensures err { OnErr result (state_of session.new ≡ state_of session.old) }
    ensures dump { dump_of session.new ≡ dump_of session.old }
{
    match read_call(alloc, line) {
        Ok(call) => perform(session, call),
        Err(CallFault::Refused(refusal)) => Ok(Reply::Refused(refusal)),
        Err(CallFault::NoMemory) => Err(AllocError),
    }
}

/// The call in a line.
fn read_call(alloc: Global, line: &[u8]) -> Result<Call, CallFault>
    ensures call { (dump : Dump) → IfOk result (λ c.
        call_in (bytes_of dump) (documents dump) line.now ≡ Ok (session_call dump c)) }
    ensures fault { (dump : Dump) → IfErr result
        (RefusesPart (call_in (bytes_of dump) (documents dump) line.now)) }
{
    let document = read_line(alloc, line)?;
    let command = command_in(alloc, &document)?;
    call_of(alloc, command)
}

/// The document in a line.
fn read_line(alloc: Global, line: &[u8]) -> Result<Document, CallFault>
    ensures document { IfOk result (λ d. line_document line.now ≡ Ok (pairs d)) }
    ensures fault { IfErr result (RefusesPart (line_document line.now)) }
{
    match read_doc(alloc, line) {
        Ok(document) => Ok(document),
        Err(fault) => match fault.kind {
            JsonFaultKind::NoMemory => Err(CallFault::NoMemory),
            _ => Err(CallFault::Refused(LineRefusal::Json(fault))),
        },
    }
}

/// The command that a document means.
pub fn command_in(alloc: Global, document: &Document) -> Result<Command, CallFault>
    ensures command { IfOk result (λ c. command_of (pairs document.now) ≡ Ok (command_tree c)) }
    ensures fault { IfErr result
        (RefusesPart (error_as command_refusal (command_of (pairs document.now)))) }
{
    match read_command(alloc, document) {
        Ok(command) => Ok(command),
        Err(CommandFault::NoMemory) => Err(CallFault::NoMemory),
        Err(fault) => Err(CallFault::Refused(LineRefusal::Command(fault))),
    }
}

/// Makes a call. It fails only if memory runs out, and then the session is unchanged.
pub fn perform(session: &mut Session, call: Call) -> Result<Reply, NoMemory>
    ensures performs { IsPerformed
        (session_call (dump_of session.old) call) session.old result session.new }
{
    match call_reply(session, call) {
        Ok(reply) => Ok(reply),
        Err(Refused::NoMemory) => Err(AllocError),
        Err(refused) => Ok(Reply::Refused(LineRefusal::Session(refused))),
    }
}

/// The reply of a call, or why the session refuses it.
fn call_reply(session: &mut Session, call: Call) -> Result<Reply, Refused>
    ensures answers { IsAnswered
        (session_call (dump_of session.old) call) session.old result session.new }
{
    match call {
        Call::CreateIndex {
            path,
            sparse: false,
        } => Ok(Reply::Made(session.create_index(path)?)),
        Call::CreateIndex { path, sparse: true } => {
            Ok(Reply::Made(session.create_sparse_index(path)?))
        }
        Call::DropIndex(path) => {
            session.drop_index(&path)?;
            Ok(Reply::Done)
        }
        Call::Find(request, choice) => Ok(Reply::Opened(session.find(request, choice)?)),
        Call::Resume(request, choice, token) => {
            Ok(Reply::Opened(session.resume(request, choice, &token)?))
        }
        Call::GetMore { id, batch } => Ok(Reply::Gave(session.next(id, batch)?)),
        Call::KillCursor(id) => {
            session.kill(id)?;
            Ok(Reply::Done)
        }
        Call::Explain(request, choice) => {
            Ok(Reply::Explained(session.explain(&request, &choice)?))
        }
    }
}
