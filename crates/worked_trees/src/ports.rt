//! The adapters over a runtime and a stream of the test's own, which fail.

use std::alloc::{Allocator, Global};
use std::fs::{Metadata, OpenFile, OpenOptions};
use std::io;
use std::io::{Error, ErrorKind, Read, Seek, SeekFrom, Write};
use std::test::Fail;
use sync_port::{
    Files, HostFiles, HostSink, PortFault, Sink, SinkFailed, WholeFault, read_whole, send,
};

fn unsupported<T>() -> io::Result<T> {
    Err(Error::from(ErrorKind::Unsupported))
}

/// A file of five bytes, read in two pieces. Where it is broken, the reads after the first all fail.
#[derive(Drop)]
struct TwoPieces {
    reads: usize,
    broken: bool,
}

impl Read for TwoPieces {
    fn read(&mut self, piece: &mut [u8]) -> io::Result<usize> {
        let next: &[u8] = match self.reads {
            0 => b"hel",
            1 if self.broken => return Err(Error::from(ErrorKind::Other)),
            1 => b"lo",
            _ => b"",
        };
        let count = next.len().min(piece.len());
        piece[..count].copy_from_slice(&next[..count]);
        self.reads = self.reads.saturating_add(1);
        Ok(count)
    }
}

impl Write for TwoPieces {
    fn write(&mut self, _piece: &[u8]) -> io::Result<usize> {
        Err(Error::from(ErrorKind::Unsupported))
    }

    fn flush(&mut self) -> io::Result<()> {
        Ok(())
    }
}

impl Seek for TwoPieces {
    fn seek(&mut self, _to: SeekFrom) -> io::Result<u64> {
        unsupported()
    }
}

impl OpenFile for TwoPieces {
    fn metadata(&self) -> io::Result<Metadata> {
        unsupported()
    }

    fn set_len(&self, _size: u64) -> io::Result<()> {
        unsupported()
    }

    fn sync_all(&self) -> io::Result<()> {
        unsupported()
    }

    fn sync_data(&self) -> io::Result<()> {
        unsupported()
    }
}

/// A runtime with the files `whole` and `broken`.
#[derive(Clone, Copy)]
struct TwoFiles;

impl std::rt::Files for TwoFiles {
    type File = TwoPieces;

    type Dir = TwoPieces;

    fn open_file(&self, _how: &OpenOptions, path: &str) -> io::Result<TwoPieces> {
        match path {
            "whole" => Ok(TwoPieces {
                reads: 0,
                broken: false,
            }),
            "broken" => Ok(TwoPieces {
                reads: 0,
                broken: true,
            }),
            _ => Err(Error::from(ErrorKind::NotFound)),
        }
    }

    fn open_dir(&self, _path: &str) -> io::Result<TwoPieces> {
        unsupported()
    }

    fn metadata(&self, _path: &str) -> io::Result<Metadata> {
        unsupported()
    }

    fn symlink_metadata(&self, _path: &str) -> io::Result<Metadata> {
        unsupported()
    }

    fn copy(&self, _from: &str, _to: &str) -> io::Result<u64> {
        unsupported()
    }

    fn rename(&self, _from: &str, _to: &str) -> io::Result<()> {
        unsupported()
    }

    fn remove_file(&self, _path: &str) -> io::Result<()> {
        unsupported()
    }

    fn create_dir(&self, _path: &str) -> io::Result<()> {
        unsupported()
    }

    fn remove_dir(&self, _path: &str) -> io::Result<()> {
        unsupported()
    }

    fn remove_dir_all<B: Allocator>(&self, _alloc: B, _path: &str) -> io::Result<()> {
        unsupported()
    }
}

/// A stream that takes two bytes at a time, up to a number of bytes, and whose flushes all fail.
#[derive(Drop)]
struct Narrow {
    got: Vec<u8>,
    most: usize,
}

impl Write for Narrow {
    fn write(&mut self, piece: &[u8]) -> io::Result<usize> {
        if self.got.len() >= self.most {
            return Err(Error::from(ErrorKind::StorageFull));
        }
        let count = piece.len().min(2);
        self.got.extend_from_slice(&piece[..count])?;
        Ok(count)
    }

    fn flush(&mut self) -> io::Result<()> {
        Err(Error::from(ErrorKind::StorageFull))
    }
}

fn narrow_sink(alloc: Global, most: usize) -> HostSink<Narrow> {
    HostSink::new(Narrow {
        got: Vec::new(alloc),
        most,
    })
}

#[test]
fn a_read_that_fails_is_answered(rt: HostRuntime) -> Result<(), Fail> {
    let alloc = rt.alloc();
    let mut files = HostFiles::new(TwoFiles, alloc);
    let whole = read_whole(alloc, &mut files, "whole", 5)?;
    assert_eq!(rt; whole.as_slice(), b"hello".as_slice());
    let refusal = read_whole(alloc, &mut files, "whole", 4).err();
    assert_eq!(rt; refusal, Some(WholeFault::TooLarge));
    let refusal = read_whole(alloc, &mut files, "broken", 5).err();
    assert_eq!(rt; refusal, Some(WholeFault::ReadFault));
    // After a refused `open` the file from before is no longer open.
    assert_eq!(rt; files.open("whole"), Ok(()));
    assert_eq!(rt; files.open("other"), Err(PortFault::Failed));
    assert_eq!(rt; files.read(&mut [0u8; 4]), Ok(0));
    Ok(())
}

#[test]
fn a_write_and_a_flush_that_fail_are_answered(rt: HostRuntime) -> Result<(), Fail> {
    let alloc = rt.alloc();
    let mut sink = narrow_sink(alloc, 9);
    assert_eq!(rt; sink.write(b"tree"), Ok(2));
    assert_eq!(rt; send(&mut sink, b"ees"), Ok(()));
    assert_eq!(rt; sink.flush(), Err(SinkFailed));
    let mut sink = narrow_sink(alloc, 3);
    assert_eq!(rt; send(&mut sink, b"trees"), Err(SinkFailed));
    Ok(())
}
