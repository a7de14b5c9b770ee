//! The adapters over the system: files that it wrote itself, and outputs that fill up.

ghost use Rattle.std.specs.Prelude.{◌≤◌};

use ats_io::{Files, MAX_PLACE, ReadFault, read_whole, write_all};
use ats_num::Failure;
use ats_system::{RealFiles, RealSink};
use std::alloc::Global;
use std::cell::Cell;
use std::fmt::Display;
use std::io::Print;
use std::test::Fail;
use std::{fs, io, process};

// The words of two files that are named after this process.
fn words_of(alloc: Global, id: u32) -> Result<Vec<String>, Fail> {
    let path = format!(in alloc; "/tmp/ats_cli_reads_files_{id}")?;
    let missing = format!(in alloc; "{path}_missing")?;
    Ok(vec![in alloc; path, missing]?)
}

// How a whole read of at most so many bytes ends: with these bytes, or with a fault.
fn reads_whole<F: Files>(
    alloc: Global,
    files: &mut F,
    name: &str,
    limit: u64,
    due: Result<&[u8], ReadFault>,
) -> bool
    requires { limit ≤ MAX_PLACE }
{
    match (read_whole(alloc, files, name, limit), due) {
        (Ok(bytes), Ok(text)) => bytes.as_slice() == text,
        (Err(Failure::Fault(fault)), Err(other)) => fault == other,
        _ => false,
    }
}

// Reads a file that it wrote itself in two pieces and past its end, whole, and again from an
// earlier place, and files that are not there, one of which is no word.
#[test]
fn reads_files(rt: HostRuntime) -> Result<(), Fail> {
    let words = words_of(rt.alloc(), process::id(rt.process()))?;
    assert_eq!(rt; words.len(), 2);
    let (path, missing) = (words[0].as_str(), words[1].as_str());
    fs::write(&rt, path, "abcde")?;
    let mut files = RealFiles::new(rt.alloc(), rt, &words)?;
    let mut buf = [0u8; 3];
    assert!(rt; files.read(path, 0, &mut buf) == Ok(3));
    assert!(rt; buf == *b"abc");
    assert!(rt; files.read(path, 3, &mut buf) == Ok(2));
    assert!(rt; buf == *b"dec");
    assert!(rt; files.read(path, 5, &mut buf) == Ok(0));
    assert!(rt; files.read(path, 9, &mut buf) == Ok(0));
    assert!(rt; files.read(missing, 0, &mut buf).is_err());
    assert!(rt; files.read("/tmp/ats_cli/no/word", 0, &mut buf).is_err());
    assert!(rt; files.read(path, 1, &mut buf) == Ok(3));
    assert!(rt; buf == *b"bcd");
    assert!(rt; reads_whole(rt.alloc(), &mut files, path, 5, Ok(b"abcde")));
    assert!(rt; reads_whole(rt.alloc(), &mut files, path, 4, Err(ReadFault::TooLong)));
    assert!(rt; reads_whole(rt.alloc(), &mut files, missing, 4, Err(ReadFault::Failed)));
    assert!(rt; reads_whole(rt.alloc(), &mut files, "/tmp", 4, Err(ReadFault::Failed)));
    fs::remove_file(&rt, path)?;
    Ok(())
}

// An output that takes two bytes in its first call, one in its second, and none after that.
#[derive(Drop)]
struct Filling {
    left: Cell<usize>,
}

impl Print for Filling {
    fn print<D: Display + Drop>(&self, _value: D) -> io::Result<()> {
        Err(io::Error::from(io::ErrorKind::Unsupported))
    }

    fn println<D: Display + Drop>(&self, _value: D) -> io::Result<()> {
        Err(io::Error::from(io::ErrorKind::Unsupported))
    }

    fn write_all(&self, _bytes: &[u8]) -> io::Result<()> {
        Err(io::Error::from(io::ErrorKind::Unsupported))
    }

    fn write_some(&self, bytes: &[u8]) -> io::Result<usize> {
        let count = self.left.get().min(bytes.len());
        self.left.set(self.left.get().saturating_sub(1));
        Ok(count)
    }
}

#[test]
fn writes_pieces(rt: HostRuntime) {
    let mut out = RealSink::new(Filling { left: Cell::new(2) });
    assert!(rt; write_all(&mut out, b"abc").is_ok());
    assert!(rt; write_all(&mut out, b"d").is_err());
    assert!(rt; write_all(&mut RealSink::new(rt), b"abc").is_ok());
}
