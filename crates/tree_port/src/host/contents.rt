//! Contents of files of the system, by the texts of their paths.

ghost use Rattle.std.specs.Prelude.{◌≤◌, ◌+◌, IfOk, vec_len};

use crate::TreeFault;
use std::alloc::{AllocError, Global};
use std::io::{ErrorKind, Read, Write};
use std::{fs, io};

/// How many bytes are read at a time.
const PIECE: usize = 65536;

/// Why a call of the system was refused, as a tree answers it.
pub(super) fn fault_of(error: &io::Error) -> TreeFault {
    match error.kind() {
        ErrorKind::PermissionDenied
        | ErrorKind::NotADirectory
        | ErrorKind::IsADirectory
        | ErrorKind::DirectoryNotEmpty => TreeFault::Denied,
        ErrorKind::OutOfMemory => TreeFault::Memory,
        _ => TreeFault::Failed,
    }
}

/// Whether the call succeeded, or found nothing under the name.
pub(super) fn unless_missing(answer: io::Result<()>) -> Result<(), TreeFault> {
    match answer {
        Ok(()) => Ok(()),
        Err(error) if error.kind() == ErrorKind::NotFound => Ok(()),
        Err(error) => Err(fault_of(&error)),
    }
}

/// Writes a new file. A file or a link that is there is refused.
pub(super) fn write_new<R: std::rt::Files>(rt: &R, path: &str, bytes: &[u8]) -> io::Result<()> {
    let mut file = fs::File::create_new(rt, path)?;
    file.write_all(bytes)
}

/// Whether a file has just these bytes.
pub(super) fn has_bytes<R: std::rt::Files>(
    rt: &R,
    path: &str,
    bytes: &[u8],
) -> Result<bool, TreeFault> {
    let mut file = fs::open(rt, path).map_err(|error| fault_of(&error))?;
    let mut piece = [0u8; PIECE];
    let mut rest = bytes;
    'pieces: while !rest.is_empty() {
        let most = rest.len().min(PIECE);
        let count = match file.read(&mut piece[..most]) {
            Ok(count) => count.min(most),
            Err(error) => return Err(fault_of(&error)),
        };
        if count == 0 || piece[..count] != rest[..count] {
            return Ok(false);
        }
        rest = &rest[count..];
    }
    Ok(true)
}

/// Reads a file as a whole; `Failed` where it has more bytes than the limit.
pub(super) fn read_bytes<R: std::rt::Files>(
    rt: &R,
    alloc: Global,
    path: &str,
    limit: usize,
) -> Result<Vec<u8>, TreeFault>
    ensures { IfOk result (λ bytes. vec_len bytes ≤ limit) }
{
    let mut file = fs::open(rt, path).map_err(|error| fault_of(&error))?;
    let mut piece = [0u8; PIECE];
    let mut bytes = Vec::new(alloc);
    'pieces: while bytes.len() <= limit {
        let count = match file.read(&mut piece) {
            Ok(count) => count,
            Err(error) => return Err(fault_of(&error)),
        };
        if count == 0 {
            return Ok(bytes);
        }
        bytes
            .extend_from_slice(&piece[..count])
            .map_err(out_of_memory)?;
    }
    Err(TreeFault::Failed)
}

pub(super) fn out_of_memory(_error: AllocError) -> TreeFault {
    TreeFault::Memory
}
