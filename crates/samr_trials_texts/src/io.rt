//! Sources and sinks of bytes: in memory, where chosen calls fail, and over readers and writers of std.

use samr_io::{
    Failed, MemSink, MemSource, ReadError, Sink, Source, StdSink, StdSource, read_up_to,
    write_whole,
};
use std::alloc::Global;
use std::io;
use std::io::{ErrorKind, Read, Write};
use std::test::Fail;

const NEVER: u64 = u64::MAX;

/// The end of what a source or a sink shows of itself, where it has counted these faults.
fn counted(alloc: Global, faults: u64) -> Result<String, Fail> {
    Ok(format!(in alloc; "faults: {faults} }}")?)
}

fn sink_counts(alloc: Global, sink: &MemSink, faults: u64) -> Result<bool, Fail> {
    let shown = format!(in alloc; "{sink:?}")?;
    let end = counted(alloc, faults)?;
    Ok(shown.as_str().ends_with(end.as_str()))
}

fn source_counts(alloc: Global, source: &MemSource, faults: u64) -> Result<bool, Fail> {
    let shown = format!(in alloc; "{source:?}")?;
    let end = counted(alloc, faults)?;
    Ok(shown.as_str().ends_with(end.as_str()))
}

#[test]
fn sink_calls(rt: HostRuntime) -> Result<(), Fail> {
    let fault = Err(Failed);
    // The room, the most bytes of a call, the call that fails, the piece that is written three
    // times, the answers, the bytes held and the count of faults.
    let rows = [
        (4, 8, NEVER, "abcde", [fault, fault, fault], "", 3),
        (9, 8, 1, "abc", [Ok(3), fault, Ok(3)], "abcabc", 1),
        (9, 2, 2, "abc", [Ok(2), Ok(2), fault], "abab", 1),
        (6, 4, NEVER, "abcde", [Ok(4), fault, fault], "abcd", 2),
        (9, 0, NEVER, "abc", [Ok(0), Ok(0), Ok(0)], "", 3),
        (0, 8, NEVER, "", [Ok(0), Ok(0), Ok(0)], "", 0),
    ];
    for (room, most, fails, piece, answers, held, faults) in rows {
        let planned = Vec::from_array(rt.alloc(), [fails])?;
        let mut sink = MemSink::new(rt.alloc(), room, most, planned)?;
        for answer in answers {
            assert_eq!(rt;
                sink.write(piece.as_bytes()),
                answer,
                "room {room}, most {most}"
            );
        }
        assert_eq!(rt; sink.held(), held.as_bytes(), "room {room}, most {most}");
        assert!(rt;
            sink_counts(rt.alloc(), &sink, faults)?,
            "room {room}, most {most}"
        );
    }
    Ok(())
}

#[test]
fn source_calls(rt: HostRuntime) -> Result<(), Fail> {
    let fault = Err(Failed);
    // The call that fails, the answers to a buffer of two bytes and the count of faults.
    let rows = [
        (NEVER, [Ok(2), Ok(2), Ok(1), Ok(0)], 0),
        (1, [Ok(2), fault, Ok(2), Ok(1)], 1),
        (3, [Ok(2), Ok(2), Ok(1), fault], 1),
    ];
    for (fails, answers, faults) in rows {
        let bytes = Vec::from_array(rt.alloc(), *b"hello")?;
        let mut source = MemSource::new(bytes, Vec::from_array(rt.alloc(), [fails])?);
        let mut buf = [0u8; 2];
        for answer in answers {
            assert_eq!(rt; source.read(&mut buf), answer, "fails {fails}");
        }
        assert!(rt;
            source_counts(rt.alloc(), &source, faults)?,
            "fails {fails}"
        );
    }
    Ok(())
}

#[test]
fn reads_up_to_the_limit(rt: HostRuntime) -> Result<(), Fail> {
    // The number of bytes, the call that fails, the limit, and the number of bytes read.
    let rows = [
        (5, 9, 0, Ok(0)),
        (5, 9, 4, Ok(4)),
        (5, 9, 5, Ok(5)),
        (5, 9, 6, Ok(5)),
        (5, 1, 5, Ok(5)),
        (5, 1, 6, Err(ReadError::Failed)),
        (5, 0, 5, Err(ReadError::Failed)),
        (9000, 9, 8999, Ok(8999)),
        (9000, 9, 9001, Ok(9000)),
        (9000, 2, 9001, Err(ReadError::Failed)),
    ];
    for (length, fails, limit, read) in rows {
        let bytes = vec![in rt.alloc(); 7u8; length]?;
        let mut source = MemSource::new(bytes, Vec::from_array(rt.alloc(), [fails])?);
        let answer = read_up_to(rt.alloc(), &mut source, limit);
        assert_eq!(rt; answer.map(|bytes| bytes.len()), read, "limit {limit}");
    }
    Ok(())
}

#[test]
fn writes_the_whole_text(rt: HostRuntime) -> Result<(), Fail> {
    // The room, the most bytes of a call, the call that fails, the answer, and the bytes held.
    let rows = [
        (20, 8, 9, Ok(()), "twenty bytes of text"),
        (19, 8, 9, Err(Failed), "twenty bytes of "),
        (20, 8, 2, Err(Failed), "twenty bytes of "),
        (20, 8, 1, Err(Failed), "twenty b"),
        (20, 8, 0, Err(Failed), ""),
        (20, 0, 9, Err(Failed), ""),
    ];
    for (room, most, fails, answer, held) in rows {
        let planned = Vec::from_array(rt.alloc(), [fails])?;
        let mut sink = MemSink::new(rt.alloc(), room, most, planned)?;
        assert_eq!(rt;
            write_whole(&mut sink, b"twenty bytes of text"),
            answer,
            "call {fails}"
        );
        assert_eq!(rt; sink.held(), held.as_bytes(), "call {fails}");
    }
    Ok(())
}

/// A reader and a writer that fail at each call.
#[derive(Drop)]
struct Broken;

impl Read for Broken {
    fn read(&mut self, _buf: &mut [u8]) -> io::Result<usize> {
        Err(io::Error::from(ErrorKind::BrokenPipe))
    }
}

impl Write for Broken {
    fn write(&mut self, _buf: &[u8]) -> io::Result<usize> {
        Err(io::Error::from(ErrorKind::BrokenPipe))
    }

    fn flush(&mut self) -> io::Result<()> {
        Ok(())
    }
}

#[test]
fn reads_from_a_reader(rt: HostRuntime) -> Result<(), Fail> {
    let text: &[u8] = b"hello";
    let mut source = StdSource::new(text);
    let bytes = read_up_to(rt.alloc(), &mut source, 9)?;
    assert_eq!(rt; bytes.as_slice(), text);

    let mut source = StdSource::new(Broken);
    let answer = read_up_to(rt.alloc(), &mut source, 9);
    assert_eq!(rt; answer.err(), Some(ReadError::Failed));
    Ok(())
}

#[test]
fn writes_to_a_writer(rt: HostRuntime) -> Result<(), Fail> {
    let text: &[u8] = b"hello";
    let mut written = Vec::new(rt.alloc());
    let mut sink = StdSink::new(&mut written);
    write_whole(&mut sink, text)?;
    assert_eq!(rt; written.as_slice(), text);

    let mut sink = StdSink::new(Broken);
    assert_eq!(rt; write_whole(&mut sink, text), Err(Failed));
    Ok(())
}

#[test]
fn counts_a_stalled_write(rt: HostRuntime) {
    let mut room = [0u8; 3];
    let mut sink = StdSink::new(room.as_mut_slice());
    assert_eq!(rt; write_whole(&mut sink, b"hello"), Err(Failed));
}
