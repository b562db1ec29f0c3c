//! Sources, sinks and shelves, in memory and over the machine.

use pv_io::{
    Failed, FetchError, FolderShelf, MemShelf, MemSink, MemSource, ReadSource, Shelf, Sink, Source,
    WriteSink, write_all,
};
use std::alloc::{AllocError, Global};
use std::io::{Read, Write};
use std::test::Fail;
use std::{fs, io};
use test_fixture::rows::expect;

const FOLDER: &str = "test_base_folder";

const FILE: &str = "test_base_folder/a.xml";

const NO_FILE: &str = "test_base_folder/b.xml";

fn texts_of(alloc: Global, words: &[&str]) -> Result<Vec<String>, AllocError> {
    let mut texts = Vec::new(alloc);
    for word in words {
        texts.push(String::from_str(alloc, *word)?)?;
    }
    Ok(texts)
}

// Whether the next call, with room for so many bytes, gives this, and leaves this in the buffer.
fn fills(source: &mut MemSource, room: usize, wanted: Result<usize, Failed>, left: &[u8]) -> bool {
    let mut buf = [b'-'; 4];
    source.fill(&mut buf[..room.min(4)]) == wanted && buf.as_slice() == left
}

/// Calls of a source of `abcde` that gives two bytes at a time and fails at its second call.
static FILLS: [(usize, Result<usize, Failed>, &[u8]); 5] = [
    (4, Ok(2), b"ab--"),
    (4, Err(Failed), b"----"),
    (1, Ok(1), b"c---"),
    (4, Ok(2), b"de--"),
    (4, Ok(0), b"----"),
];

#[test]
fn memory_sources(rt: HostRuntime) -> Result<(), Fail> {
    let mut source = MemSource::new(rt.alloc(), b"abcde", 2, &[1])?;
    for (room, wanted, left) in &FILLS {
        expect(fills(&mut source, *room, *wanted, *left), left)?;
    }
    Ok(())
}

// Whether the bytes are written with this result, and the sink then holds this.
fn writes(sink: &mut MemSink, bytes: &[u8], wanted: Result<(), Failed>, written: &[u8]) -> bool {
    write_all(sink, bytes) == wanted && sink.written() == written
}

/// Writes to a sink with room for five bytes that takes two at a time and fails at its second
/// call.
static WRITES: [(&[u8], Result<(), Failed>, &[u8]); 3] = [
    (b"abc", Err(Failed), b"ab"),
    (b"cd", Ok(()), b"abcd"),
    (b"ef", Err(Failed), b"abcde"),
];

#[test]
fn memory_sinks(rt: HostRuntime) -> Result<(), Fail> {
    let mut sink = MemSink::new(rt.alloc(), 5, 2, &[1])?;
    for (bytes, wanted, written) in &WRITES {
        expect(writes(&mut sink, *bytes, *wanted, *written), bytes)?;
    }
    assert!(rt; sink.put(b"") == Ok(0));
    assert!(rt; sink.written() == b"abcde".as_slice());
    Ok(())
}

// A shelf of two files of one name, which fails at its fetches of these numbers.
fn shelf_of(alloc: Global) -> Result<MemShelf, Fail> {
    let names = texts_of(alloc, &["a", "b"])?;
    let mut files = Vec::new(alloc);
    files.push((String::from_str(alloc, "a")?, b"abc".to_vec(alloc)?))?;
    files.push((String::from_str(alloc, "a")?, b"other".to_vec(alloc)?))?;
    Ok(MemShelf::new(alloc, &names, &files, &[2, 3])?)
}

/// A file's name, the most bytes that are wanted, and the file or why there is none.
type Fetch = (&'static str, usize, Result<&'static [u8], FetchError>);

// Whether the file, or why there is none, is this.
fn is_fetched(found: Result<Vec<u8>, FetchError>, wanted: Result<&[u8], FetchError>) -> bool {
    match found {
        Ok(file) => wanted == Ok(file.as_slice()),
        Err(error) => wanted == Err(error),
    }
}

/// Fetches from a shelf that fails at the second and at the fourth.
static FETCHES: [Fetch; 4] = [
    ("a", 3, Ok(b"abc")),
    ("b", 3, Err(FetchError::Failed)),
    ("a", 2, Err(FetchError::TooLong)),
    ("a", 3, Err(FetchError::Failed)),
];

#[test]
fn memory_shelves(rt: HostRuntime) -> Result<(), Fail> {
    let mut shelf = shelf_of(rt.alloc())?;
    for (name, most, wanted) in &FETCHES {
        let found = shelf.fetch(rt.alloc(), *name, *most);
        expect(is_fetched(found, *wanted), wanted)?;
    }
    Ok(())
}

// A stream that gives and takes one byte at a time, but fails at its second call.
#[derive(Drop)]
struct Stutter {
    calls: u8,
    bytes: Vec<u8>,
}

impl Read for Stutter {
    fn read(&mut self, buf: &mut [u8]) -> io::Result<usize> {
        self.calls = self.calls.saturating_add(1);
        if self.calls == 2 {
            return Err(io::Error::from(io::ErrorKind::Other));
        }
        if buf.is_empty() {
            return Ok(0);
        }
        buf[0] = b'x';
        Ok(1)
    }
}

impl Write for Stutter {
    fn write(&mut self, bytes: &[u8]) -> io::Result<usize> {
        self.calls = self.calls.saturating_add(1);
        if self.calls == 2 {
            return Err(io::Error::from(io::ErrorKind::Other));
        }
        if self.calls == 4 || bytes.is_empty() {
            return Ok(0);
        }
        self.bytes.push(bytes[0])?;
        Ok(1)
    }

    fn flush(&mut self) -> io::Result<()> {
        Ok(())
    }
}

impl Stutter {
    fn new(alloc: Global) -> Stutter {
        Stutter {
            calls: 0,
            bytes: Vec::new(alloc),
        }
    }
}

#[test]
fn readers(rt: HostRuntime) {
    let mut source = ReadSource::new(Stutter::new(rt.alloc()));
    let mut buf = [b'-'; 2];
    assert!(rt; source.fill(&mut buf) == Ok(1));
    assert!(rt; source.fill(&mut buf) == Err(Failed));
    assert!(rt; source.fill(&mut buf) == Ok(1));
    assert!(rt; buf.as_slice() == b"x-".as_slice());
}

/// Bytes that are put into a stream, each with the answer.
static PUTS: [(&[u8], Result<usize, Failed>); 4] = [
    (b"ab", Ok(1)),
    (b"b", Err(Failed)),
    (b"", Ok(0)),
    (b"b", Err(Failed)),
];

#[test]
fn writers(rt: HostRuntime) -> Result<(), Fail> {
    let mut sink = WriteSink::new(Stutter::new(rt.alloc()));
    for (bytes, wanted) in &PUTS {
        expect(sink.put(*bytes) == *wanted, bytes)?;
    }
    assert!(rt; write_all(&mut sink, b"bc") == Ok(()));
    Ok(())
}

// Makes a folder with one file.
fn make_folder(rt: HostRuntime) -> Result<(), Fail> {
    let _ = fs::remove_dir_all(&rt, FOLDER);
    fs::create_dir(&rt, FOLDER)?;
    fs::write(&rt, FILE, b"<doc/>".as_slice())?;
    Ok(())
}

/// Fetches from a folder.
static FILES: [Fetch; 3] = [
    (FILE, 6, Ok(b"<doc/>")),
    (FILE, 5, Err(FetchError::TooLong)),
    (NO_FILE, 6, Err(FetchError::Failed)),
];

#[test]
fn files_by_their_paths(rt: HostRuntime) -> Result<(), Fail> {
    make_folder(rt)?;
    let words = texts_of(rt.alloc(), &["valid", FILE, "doc", NO_FILE])?;
    let mut shelf = FolderShelf::new(&rt, &words);
    for (name, most, wanted) in &FILES {
        let found = shelf.fetch(rt.alloc(), *name, *most);
        expect(is_fetched(found, *wanted), wanted)?;
    }
    fs::remove_dir_all(&rt, FOLDER)?;
    Ok(())
}
