//! Replies of a service. The tokens were made by another program.
use crate::answers::{RowFault, is_whole};
use crate::samples::{MIXED, SEVERAL_KEYS, dump_of};
use bd_cli_service::Service;
use bd_io_lines::Replier;
use std::alloc::Global;

/// Lines over `SEVERAL_KEYS`, and the reply to each.
pub(crate) const TALK: (&str, &str) = (
    r#"{"createIndex":"a"}
{"explain":{"a":{"$gte":5}}}
{"find":{"a":{"$gte":5}}}
{"getMore":1,"batch":0}
{"getMore":2,"batch":1}
{"getMore":1}
{"killCursor":1}
"#,
    r#"{"ok":true,"entries":{"$numberLong":"3"},"multikey":true}
{"ok":true,"plan":"index","index":"a","entries":{"$numberLong":"3"},"documents":{"$numberLong":"2"},"matches":{"$numberLong":"2"}}
{"ok":true,"cursor":{"$numberLong":"1"}}
{"ok":true,"documents":[],"end":false,"token":null}
{"ok":false,"layer":"session","number":{"$numberInt":"6"},"text":"no such cursor"}
{"ok":false,"layer":"command","number":{"$numberInt":"2"},"text":"missing field"}
{"ok":true}
"#,
);

/// The same over `MIXED`: a cursor in the order of an index, whose token resumes without it.
pub(crate) const RESUMED: (&str, &str) = (
    r#"{"createIndex":"a"}
{"find":{},"sort":{"a":1},"use":{"index":"a"}}
{"getMore":1,"batch":2}
{"dropIndex":"a"}
{"resume":"AQIAAAAAAAAAAQAAAMnybd8W0Svym49NksrDop1seNhyK3FVwRdWmJPE9mAN","sort":{"a":1},"use":"scan"}
{"getMore":2,"batch":5}
"#,
    r#"{"ok":true,"entries":{"$numberLong":"6"},"multikey":true}
{"ok":true,"cursor":{"$numberLong":"1"}}
{"ok":true,"documents":[{"a":[]},{}],"end":false,"token":"AQIAAAAAAAAAAQAAAMnybd8W0Svym49NksrDop1seNhyK3FVwRdWmJPE9mAN"}
{"ok":true}
{"ok":true,"cursor":{"$numberLong":"2"}}
{"ok":true,"documents":[{"a":null},{"a":[{"$numberInt":"3"},{"$numberInt":"1"}]},{"a":{"$numberInt":"2"}}],"end":true,"token":"AQUAAAAAAAAABAAAAMnybd8W0Svym49NksrDop1seNhyK3FVwRdWmJPE9mAN"}
"#,
);

/// Whether each line that is sent to a service over a dump has its reply. If a reply could not be made, nothing of it is written.
fn replies(alloc: Global, dump: &[u8], talk: (&str, &str)) -> Result<bool, RowFault> {
    let mut service = Service::new(alloc, dump_of(alloc, dump)?);
    let mut wanted = talk.1.lines();
    let mut replied = Vec::new(alloc);
    for line in talk.0.lines() {
        replied.clear();
        if service.reply(line.as_bytes(), &mut replied).is_err() {
            return Err(if replied.is_empty() {
                RowFault::NoMemory
            } else {
                RowFault::Otherwise
            });
        }
        if replied.as_slice() != wanted.next().unwrap_or("").as_bytes() {
            return Ok(false);
        }
    }
    Ok(wanted.next().is_none())
}

#[test]
fn services(rt: HostRuntime) {
    for (dump, talk) in [(SEVERAL_KEYS, TALK), (MIXED, RESUMED)] {
        assert!(rt; is_whole!(replies(rt.alloc(), dump, talk)), "{}", talk.0);
    }
}
