//! The examples of use in the roots of `bd_cursor_model`, `bd_cli_command`, `bd_cursor`, `bd_cursor_request`, `bd_cli_service` and `bd_cursor_sort`.
use crate::samples::{five, read_documents, read_request, three};
use bd_cli_command::{Command, CommandFault, read_command};
use bd_cli_service::{LineRefusal, Reply, Service, write_reply};
use bd_cursor::{Access, Choice, Session};
use bd_cursor_model::{PlaceSource, Scan};
use bd_cursor_request::Request;
use bd_cursor_sort::sorted_places;
use bd_extjson::read_doc;
use bd_index::Index;
use bd_io_lines::Replier;
use bd_path::Path;
use std::test::Fail;

#[test]
fn a_talk(rt: HostRuntime) -> Result<(), Fail> {
    let alloc = rt.alloc();
    let dump = five(alloc)?;
    let mut service = Service::new(alloc, dump);
    let mut text = Vec::new(alloc);
    service.reply(b"{\"find\":{}}", &mut text)?;
    assert!(rt; text.as_slice() == b"{\"ok\":true,\"cursor\":{\"$numberLong\":\"1\"}}".as_slice());
    Ok(())
}

#[test]
fn a_page(rt: HostRuntime) -> Result<(), Fail> {
    let alloc = rt.alloc();
    let document = read_doc(alloc, b"{\"getMore\":1,\"batch\":100}")?;
    assert!(rt;
        matches!(
            read_command(alloc, &document),
            Ok(Command::GetMore { id: 1, batch: 100 })
        )
    );
    Ok(())
}

#[test]
fn refused(rt: HostRuntime) -> Result<(), Fail> {
    let alloc = rt.alloc();
    let dump = three(alloc)?;
    let reply = Reply::Refused(LineRefusal::Command(CommandFault::MissingField));
    let mut text = Vec::new(alloc);
    write_reply(alloc, &dump, &reply, &mut text)?;
    assert!(rt;
        text.as_slice()
            == b"{\"ok\":false,\"layer\":\"command\",\"number\":{\"$numberInt\":\"2\"},\"text\":\"missing field\"}".as_slice()
    );
    Ok(())
}

#[test]
fn ten_cheapest(rt: HostRuntime) -> Result<(), Fail> {
    let alloc = rt.alloc();
    let filter = read_doc(alloc, b"{\"size\":\"S\"}")?;
    let sort = read_doc(alloc, b"{\"price\":1}")?;
    let Ok(request) = Request::new(alloc, filter, sort, 0, 10) else {
        return Err("a request".into());
    };
    assert!(rt; request.sort.len() == 1 && request.limit == 10);
    Ok(())
}

#[test]
fn scan(rt: HostRuntime) {
    let mut scan = Scan::new(2);
    assert!(rt; scan.next_place() == Some(0));
    assert!(rt; scan.next_place() == Some(1));
    assert!(rt; scan.next_place().is_none());
}

#[test]
fn two_batches(rt: HostRuntime) -> Result<(), Fail> {
    let alloc = rt.alloc();
    let dump = read_documents(alloc, "{\"a\":0}\n{\"a\":1}\n{\"a\":2}\n")?;
    let request = read_request(alloc, "{} {} 0 0")?;
    let mut session = Session::new(alloc, dump);
    let id = session.find(request, Choice::Scan)?;
    let batch = session.next(id, 2)?;
    assert!(rt; batch.places.len() == 2 && !batch.end);
    let batch = session.next(id, 2)?;
    assert!(rt; batch.places.len() == 1 && batch.end);
    Ok(())
}

const PRICES: &str = r#"{"price":2}
{"price":3}
{"price":1}"#;

#[test]
fn two_cheapest(rt: HostRuntime) -> Result<(), Fail> {
    let alloc = rt.alloc();
    let dump = read_documents(alloc, PRICES)?;
    let request = read_request(alloc, "{} {\"price\":1} 0 0")?;
    let source = Scan::new(dump.len());
    let places = sorted_places(alloc, &dump, &request, source, None, Some(2))?;
    assert!(rt; places.as_slice() == [2, 0].as_slice());
    Ok(())
}

#[test]
fn two_cheapest_by_index(rt: HostRuntime) -> Result<(), Fail> {
    let alloc = rt.alloc();
    let dump = read_documents(alloc, PRICES)?;
    let request = read_request(alloc, "{} {\"price\":1} 0 0")?;
    let path = Path::parse(alloc, "price")?;
    let indexes = [Index::build(alloc, &dump, path)?];
    let access = Access::of(alloc, &dump, &indexes, &request, &Choice::Auto)?;
    let places = access.places(alloc, &dump, &request, None, Some(2))?;
    assert!(rt; places.as_slice() == [2, 0].as_slice());
    Ok(())
}
