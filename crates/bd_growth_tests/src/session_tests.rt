//! Calls of sessions: a refused call is repeated, and then has its complete result. The tokens were made by other programs.
use crate::answers::{RowFault, is_whole};
use crate::samples::{FIVE, MIXED, SEVERAL_KEYS, dump_of};
use crate::service_tests::{RESUMED, TALK};
use bd_cli_service::{Reply, write_reply};
use bd_cursor::{Choice, Session};
use bd_cursor_request::{Request, Token};
use bd_extjson::read_doc;
use bd_path::Path;
use std::alloc::Global;

/// A filter, a sort, a skip and a limit.
#[derive(Clone, Copy)]
struct Words(&'static str, &'static str, u64, u64);

fn request(alloc: Global, words: Words) -> Result<Request, RowFault> {
    let Words(filter, sort, skip, limit) = words;
    let filter = read_doc(alloc, filter.as_bytes())?;
    let sort = read_doc(alloc, sort.as_bytes())?;
    Ok(Request::new(alloc, filter, sort, skip, limit)?)
}

/// A call of a session; an index is on `a`.
#[derive(Clone, Copy)]
enum Call {
    Create,
    CreateSparse,
    Drop,
    Find(Words),
    /// Without an index.
    Resume(Words, &'static str),
    Next(u64, u64),
    Explain(Words),
}

/// The reply to a call.
fn reply(alloc: Global, session: &mut Session, call: Call) -> Result<Reply, RowFault> {
    let reply = match call {
        Call::Create => Reply::Made(session.create_index(Path::parse(alloc, "a")?)?),
        Call::CreateSparse => Reply::Made(session.create_sparse_index(Path::parse(alloc, "a")?)?),
        Call::Drop => {
            session.drop_index(&Path::parse(alloc, "a")?)?;
            Reply::Done
        }
        Call::Find(words) => Reply::Opened(session.find(request(alloc, words)?, Choice::Auto)?),
        Call::Resume(words, token) => {
            let token = Token::parse(token)?;
            let request = request(alloc, words)?;
            Reply::Opened(session.resume(request, Choice::Scan, &token)?)
        }
        Call::Next(id, n) => Reply::Gave(session.next(id, n)?),
        Call::Explain(words) => {
            Reply::Explained(session.explain(&request(alloc, words)?, &Choice::Auto)?)
        }
    };
    Ok(reply)
}

/// Whether calls of a session over a dump have these replies, in their texts.
fn replies(alloc: Global, dump: &[u8], calls: &[Call], wanted: &str) -> Result<bool, RowFault> {
    let mut session = Session::new(alloc, dump_of(alloc, dump)?);
    let mut wanted = wanted.lines();
    let mut text = Vec::new(alloc);
    for call in calls {
        let reply = match reply(alloc, &mut session, *call) {
            Err(RowFault::NoMemory) => reply(alloc, &mut session, *call)?,
            answer => answer?,
        };
        text.clear();
        write_reply(alloc, session.dump(), &reply, &mut text)?;
        if text.as_slice() != wanted.next().unwrap_or("").as_bytes() {
            return Ok(false);
        }
    }
    Ok(true)
}

/// Two batches of an answer with a skip and a limit.
const BATCHES: [Call; 3] = [
    Call::Find(Words("{}", "{}", 1, 3)),
    Call::Next(1, 2),
    Call::Next(1, 2),
];

const GIVEN: &str = r#"{"ok":true,"cursor":{"$numberLong":"1"}}
{"ok":true,"documents":[{"a":{"$numberInt":"1"}},{"a":{"$numberInt":"2"}}],"end":false,"token":"AQIAAAAAAAAAAgAAAJp0O9zj0p+vf5DvZAVcdDU5n8vAevLSzNWdIqGudhaq"}
{"ok":true,"documents":[{"a":{"$numberInt":"3"}}],"end":true,"token":"AQMAAAAAAAAAAwAAAJp0O9zj0p+vf5DvZAVcdDU5n8vAevLSzNWdIqGudhaq"}"#;

/// All documents, by the least key of `a`.
const BY_A: Words = Words("{}", "{\"a\":1}", 0, 0);

/// After the second of them.
const TOKEN: &str = "AQIAAAAAAAAAAQAAAMnybd8W0Svym49NksrDop1seNhyK3FVwRdWmJPE9mAN";

/// Two documents by a walk on an index; without it the rest follows.
const WALKED: [Call; 6] = [
    Call::Create,
    Call::Find(BY_A),
    Call::Next(1, 2),
    Call::Drop,
    Call::Resume(BY_A, TOKEN),
    Call::Next(2, 5),
];

/// The plan by an index, as `explain` reports it.
const EXPLAINED: [Call; 2] = [
    Call::Create,
    Call::Explain(Words("{\"a\":{\"$gte\":5}}", "{}", 0, 0)),
];

const SPARSE: &str = r#"{"ok":true,"entries":{"$numberLong":"5"},"multikey":true}"#;

#[test]
fn sessions(rt: HostRuntime) {
    let rows: [(&[u8], &[Call], &str); 4] = [
        (FIVE, &BATCHES, GIVEN),
        (MIXED, &WALKED, RESUMED.1),
        (SEVERAL_KEYS, &EXPLAINED, TALK.1),
        (MIXED, &[Call::CreateSparse], SPARSE),
    ];
    for (dump, calls, wanted) in rows {
        assert!(rt;
            is_whole!(replies(rt.alloc(), dump, calls, wanted)),
            "{wanted}"
        );
    }
}
