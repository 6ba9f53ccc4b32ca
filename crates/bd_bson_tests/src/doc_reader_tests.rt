//! The documents of a device, one at a time: rows that were worked out by hand.
use bd_bson_check::FaultKind;
use bd_bson_stream::{DocBuffer, DocFault, DocReader, RawBytes};
use bd_io_device::{Input, Limits, MemoryInput, ReadFault, SystemInput, read_all};
use bd_value::NoMemory;
use std::alloc::Global;
use std::process::Abort;
use std::test::Fail;

const AMPLE: Limits = Limits {
    bytes: 1000,
    turns: 1000,
};

/// The document without elements.
const EMPTY: &[u8] = b"\x05\0\0\0\0";

/// The document {"a": 1}, of a 32-bit integer.
const ONE: &[u8] = b"\x0c\0\0\0\x10a\0\x01\0\0\0\0";

/// `EMPTY`, `ONE` and `EMPTY`.
const THREE: &[u8] = b"\x05\0\0\0\0\x0c\0\0\0\x10a\0\x01\0\0\0\0\x05\0\0\0\0";

/// What a call returned.
#[derive(Clone, Copy, PartialEq, Eq)]
enum Answer {
    /// A document: its start, its number and how many bytes it has.
    Document(u64, u32, usize),
    End,
    /// A fault of a length: its kind, its offset and the number of its document.
    Frame(FaultKind, u64, u32),
    Read(ReadFault),
    Failed,
}

fn of_fault(fault: &DocFault) -> Answer {
    match fault {
        DocFault::Frame(fault) => Answer::Frame(fault.kind, fault.offset, fault.document),
        DocFault::Read(fault) => Answer::Read(*fault),
        DocFault::Failed => Answer::Failed,
    }
}

/// What `DocBuffer::read_next` returned, if no document was expected.
fn of_read(read: Result<bool, DocFault>) -> Answer {
    match read {
        Ok(_) => Answer::End,
        Err(fault) => of_fault(&fault),
    }
}

/// What `DocReader::next` returned.
fn of_next(next: Result<Option<RawBytes<'_>>, DocFault>) -> Answer {
    match next {
        Ok(Some(document)) => {
            Answer::Document(document.start, document.number, document.bytes.len())
        }
        Ok(None) => Answer::End,
        Err(fault) => of_fault(&fault),
    }
}

/// A buffer with the last of `count` documents of the input.
fn read_documents(
    rt: &impl Abort,
    alloc: Global,
    input: &mut MemoryInput<'_>,
    count: u32,
) -> DocBuffer {
    let mut documents = DocBuffer::new(alloc, AMPLE);
    for _ in 0..count {
        assert!(rt; matches!(documents.read_next(input), Ok(true)));
    }
    documents
}

const TOO_MANY: Answer = Answer::Read(ReadFault::TooManyTurns);

/// One document by each pair of limits.
#[test]
fn limits_of_bytes_and_of_turns(rt: HostRuntime) {
    let document = Answer::Document(0, 0, 5);
    for (bytes, turns, answers) in [
        (4, 9, [Answer::Read(ReadFault::TooLong), Answer::Failed]),
        (5, 3, [TOO_MANY, Answer::Failed]),
        (5, 5, [document, TOO_MANY]),
        (5, 6, [document, Answer::End]),
    ] {
        let input = MemoryInput::new(EMPTY, 1, None);
        let mut reader = DocReader::new(rt.alloc(), input, Limits { bytes, turns });
        for answer in answers {
            assert!(rt; of_next(reader.next()) == answer, "{bytes}, {turns}");
        }
        assert!(rt; reader.held() <= 16_793_600);
    }
}

/// 100 documents by 20 turns.
#[test]
fn turns_of_many_documents(rt: HostRuntime) -> Result<(), Fail> {
    let bytes = EMPTY.repeat(rt.alloc(), 100)?;
    let limits = Limits {
        bytes: 100,
        turns: 20,
    };
    let mut reader = DocReader::new(rt.alloc(), MemoryInput::new(&bytes, 1, None), limits);
    for answer in [
        Answer::Document(0, 0, 5),
        Answer::Document(5, 1, 5),
        Answer::Document(10, 2, 5),
        Answer::Document(15, 3, 5),
        TOO_MANY,
        Answer::Failed,
    ] {
        assert!(rt; of_next(reader.next()) == answer);
    }
    Ok(())
}

/// Whether a call of a reader gave this document.
fn is_document(
    next: Result<Option<RawBytes<'_>>, DocFault>,
    number: u32,
    start: u64,
    bytes: &[u8],
) -> bool {
    match next {
        Ok(Some(it)) => it.number == number && it.start == start && it.bytes == bytes,
        _ => false,
    }
}

/// Asserts that a reader of `THREE` gives each with its start and its number, and then the end, twice.
fn gives_three<R: Input + Drop>(rt: &impl Abort, alloc: Global, device: R) {
    let mut reader = DocReader::new(alloc, device, AMPLE);
    for (number, start, bytes) in [(0, 0, EMPTY), (1, 5, ONE), (2, 17, EMPTY)] {
        assert!(rt; is_document(reader.next(), number, start, bytes));
    }
    for _ in 0..2 {
        assert!(rt; of_next(reader.next()) == Answer::End);
    }
}

/// Devices in memory that give at most n bytes in a call, and one of the system.
#[test]
fn each_document_with_its_start_and_number(rt: HostRuntime) {
    for most in [1, 2, 3, 7, 100] {
        assert!(rt; most > 0);
        gives_three(&rt, rt.alloc(), MemoryInput::new(THREE, most, None));
    }
    gives_three(&rt, rt.alloc(), SystemInput::new(THREE));
}

/// The number, the offset and the bytes of a buffer of `THREE` after each of its documents, and at the end.
const POSITIONS: [(u32, u64, &[u8]); 4] = [
    (1, 5, EMPTY),
    (2, 17, ONE),
    (3, 22, EMPTY),
    (3, 22, b""),
];

/// Whether a buffer has these bytes, of the document before that number, which ends at that offset.
fn is_at(documents: &DocBuffer, number: u32, offset: u64, bytes: &[u8]) -> bool {
    documents.number() == number && documents.offset() == offset && documents.bytes() == bytes
}

/// Whether a buffer reads the three documents and the end, with these counts of reads.
fn takes_three(alloc: Global, input: &mut MemoryInput<'_>, counts: [u64; 4]) -> bool {
    let mut documents = DocBuffer::new(alloc, AMPLE);
    if !is_at(&documents, 0, 0, b"") {
        return false;
    }
    for i in 0..4 {
        let (number, offset, bytes) = POSITIONS[i];
        let Ok(is_there) = documents.read_next(input) else {
            return false;
        };
        let is_right = is_at(&documents, number, offset, bytes);
        if !is_right || is_there == (i == 3) || input.calls() != counts[i] {
            return false;
        }
    }
    true
}

/// How many reads are made up to the end of each document, and up to the end of all: four bytes, and then the others.
#[test]
fn no_read_more_than_a_document_takes(rt: HostRuntime) {
    for (most, counts) in [
        (1, [5, 17, 22, 23]),
        (2, [3, 9, 12, 13]),
        (3, [3, 8, 11, 12]),
        (7, [2, 5, 7, 8]),
        (100, [2, 4, 6, 7]),
    ] {
        assert!(rt; most > 0);
        let mut input = MemoryInput::new(THREE, most, None);
        assert!(rt; takes_three(rt.alloc(), &mut input, counts), "at {most}");
        assert!(rt; input.failures() == 0);
    }
}

/// Whether these bytes of `THREE` remain after `count` documents.
fn leaves(rt: &impl Abort, alloc: Global, most: usize, count: u32, remaining: &[u8]) -> bool {
    assert!(rt; most > 0);
    let mut input = MemoryInput::new(THREE, most, None);
    let _documents = read_documents(rt, alloc, &mut input, count);
    read_all(alloc, &mut input, AMPLE).is_ok_and(|read| read.as_slice() == remaining)
}

#[test]
fn no_byte_after_a_document_is_taken(rt: HostRuntime) {
    for most in [1, 2, 3, 7, 100] {
        for (count, remaining) in [(0, THREE), (1, &THREE[5..]), (2, EMPTY), (3, b"")] {
            let is_remaining = leaves(&rt, rt.alloc(), most, count, remaining);
            assert!(rt; is_remaining, "after {count} at {most}");
        }
    }
}

/// Reads the fault of bytes that are not a document and follow `count` documents. Then no read is made, and these bytes remain.
fn fault_after(
    rt: &impl Abort,
    alloc: Global,
    input: &mut MemoryInput<'_>,
    count: u32,
    fault: Answer,
    calls: u64,
    remaining: &[u8],
) {
    let mut documents = read_documents(rt, alloc, input, count);
    for wanted in [fault, Answer::Failed, Answer::Failed] {
        assert!(rt; of_read(documents.read_next(input)) == wanted);
        assert!(rt; documents.bytes().is_empty() && input.calls() == calls);
    }
    assert!(rt; input.failures() == u64::from(fault == Answer::Read(ReadFault::Device)));
    let rest = read_all(alloc, input, AMPLE);
    assert!(rt; rest.is_ok_and(|rest| rest.as_slice() == remaining));
}

/// A read for each byte, and one that finds the end: two for one byte of a length, and so on up to twelve for 11 bytes of a
/// document; five more after a document.
#[test]
fn documents_cut_short(rt: HostRuntime) {
    for size in 1..12 {
        let calls = size as u64 + 1;
        let kind = match size {
            1..4 => FaultKind::ShortLength,
            _ => FaultKind::BadLength,
        };
        let mut alone = MemoryInput::new(&ONE[..size], 1, None);
        let fault = Answer::Frame(kind, 0, 0);
        fault_after(&rt, rt.alloc(), &mut alone, 0, fault, calls, b"");
        let mut second = MemoryInput::new(&THREE[..5 + size], 1, None);
        let fault = Answer::Frame(kind, 5, 1);
        fault_after(&rt, rt.alloc(), &mut second, 1, fault, calls + 5, b"");
    }
}

/// A bad length ends after four bytes, and a read that fails takes nothing.
#[test]
fn what_a_fault_leaves(rt: HostRuntime) {
    // 4, -1 or 4,294,967,295, 2,147,483,648, and one more than a document may have.
    let rows = [
        b"\x04\0\0\0rest",
        b"\xff\xff\xff\xffrest",
        b"\0\0\0\x80rest",
        b"\x01\x40\0\x01rest",
    ];
    for bytes in rows {
        let mut input = MemoryInput::new(bytes, 3, None);
        let fault = Answer::Frame(FaultKind::BadLength, 0, 0);
        fault_after(&rt, rt.alloc(), &mut input, 0, fault, 2, b"rest");
    }
    // The reads from 5 on are of the rest of the document.
    let rows: [(u64, &[u8]); 5] = [
        (1, ONE),
        (3, b"\0\0\x10a\0\x01\0\0\0\0"),
        (4, b"\0\x10a\0\x01\0\0\0\0"),
        (5, b"\x10a\0\x01\0\0\0\0"),
        (12, b"\0"),
    ];
    let fault = Answer::Read(ReadFault::Device);
    for (failing, remaining) in rows {
        let mut input = MemoryInput::new(ONE, 1, Some(failing));
        fault_after(&rt, rt.alloc(), &mut input, 0, fault, failing, remaining);
    }
    let mut input = MemoryInput::new(THREE, 1, Some(7));
    fault_after(&rt, rt.alloc(), &mut input, 1, fault, 7, &THREE[6..]);
}

/// Nothing is buffered of an empty device.
#[test]
fn nothing_is_buffered_of_no_document(rt: HostRuntime) {
    let mut input = MemoryInput::new(b"", 8, None);
    let mut documents = DocBuffer::new(rt.alloc(), AMPLE);
    assert!(rt; matches!(documents.read_next(&mut input), Ok(false)));
    assert!(rt; input.calls() == 1 && documents.held() == 0);
    let mut reader = DocReader::new(rt.alloc(), MemoryInput::new(b"", 8, None), AMPLE);
    assert!(rt; matches!(reader.next(), Ok(None)));
}

/// Fifty documents, and one that is shorter.
fn fifty_and_one(alloc: Global) -> Result<Vec<u8>, NoMemory> {
    let mut bytes = ONE.repeat(alloc, 50)?;
    bytes.extend_from_slice(EMPTY)?;
    Ok(bytes)
}

/// How much is buffered after the next document, if that is this one; None if it is not.
fn buffered_after(reader: &mut DocReader<MemoryInput<'_>>, wanted: &[u8]) -> Option<usize> {
    let is_there = matches!(reader.advance(), Ok(true)) && reader.bytes() == wanted;
    is_there.then_some(reader.held())
}

/// The buffer stays as long as one document needs, however many follow.
#[test]
fn documents_share_what_is_buffered(rt: HostRuntime) -> Result<(), Fail> {
    let bytes = fifty_and_one(rt.alloc())?;
    let mut reader = DocReader::new(rt.alloc(), MemoryInput::new(&bytes, 100, None), AMPLE);
    assert!(rt; reader.held() == 0);
    let held = buffered_after(&mut reader, ONE);
    assert!(rt; held >= Some(12));
    for number in 1..51 {
        let wanted = if number < 50 { ONE } else { EMPTY };
        assert!(rt;
            buffered_after(&mut reader, wanted) == held,
            "document {number}"
        );
    }
    assert!(rt; matches!(reader.advance(), Ok(false)) && Some(reader.held()) == held);
    Ok(())
}
