//! Paths: their texts and limits, and each call that allocates, with ample memory.

use std::alloc::Global;
use std::hash::{DefaultHasher, Hash, Hasher};
use std::test::Fail;
use sync_path::{MAX_NAME_LEN, MAX_NAMES, NoMemory, Path, PathFault, escape_to, unescape};

/// The path's text, or the message of the fault, which no path has as its text.
fn answer(alloc: Global, path: Result<Path, PathFault>) -> Result<Vec<u8>, Fail> {
    let mut out = Vec::new(alloc);
    match path {
        Ok(path) => path.print_to(&mut out)?,
        Err(fault) => out.extend_from_slice(format!(in alloc; "{fault}")?.as_bytes())?,
    }
    Ok(out)
}

/// A name many times, with slashes between.
fn repeated(alloc: Global, name: &[u8], times: usize) -> Result<Vec<u8>, NoMemory> {
    let mut text = Vec::new(alloc);
    for at in 0..times {
        if at > 0 {
            text.push(b'/')?;
        }
        text.extend_from_slice(name)?;
    }
    Ok(text)
}

fn hash_of<T: Hash>(value: &T) -> u64 {
    let mut hasher = DefaultHasher::new();
    value.hash(&mut hasher);
    hasher.finish()
}

#[test]
fn limits_are_kept(rt: HostRuntime) -> Result<(), Fail> {
    let alloc = rt.alloc();
    let deepest = repeated(alloc, b"a", MAX_NAMES)?;
    let longest = Vec::from_elem(alloc, b'n', MAX_NAME_LEN)?;
    let longer = Vec::from_elem(alloc, b'n', MAX_NAME_LEN + 1)?;
    let full = Path::read(alloc, &deepest)?;
    let root = Path::root(alloc, &longest)?;
    let node = root.child(alloc, b"x")?;
    let cases = [
        (full.child(alloc, b"."), b"too deep".as_slice()),
        (node.moved(alloc, &root, &full), b"too deep".as_slice()),
        (Path::root(alloc, &longer), b"a name is too long".as_slice()),
        (root.child(alloc, &longer), b"a name is too long".as_slice()),
    ];
    for (path, expected) in cases {
        assert_eq!(rt; answer(alloc, path)?.as_slice(), expected);
    }
    Ok(())
}

#[test]
fn paths_are_made_and_compared(rt: HostRuntime) -> Result<(), Fail> {
    let alloc = rt.alloc();
    let root = Path::root(alloc, b"a")?;
    let node = root.child(alloc, b"b c")?;
    let other = Path::read(alloc, b"a-b")?;
    let moved = node.moved(alloc, &root, &other)?;
    assert_eq!(rt;
        answer(alloc, Ok(moved))?.as_slice(),
        b"a-b/b%20c".as_slice()
    );
    let mut above = node.copy(alloc)?;
    assert!(rt; above == node && above.pop() && above == root && !above.pop());
    assert!(rt; hash_of(&above) == hash_of(&root) && root < node && node < other);
    above.copy_from(&node)?;
    assert!(rt; above == node && root.parent(alloc)?.is_none());
    assert!(rt; node.parent(alloc)?.is_some_and(|parent| parent == root));
    Ok(())
}

#[test]
fn escapes_there_and_back(rt: HostRuntime) -> Result<(), Fail> {
    let alloc = rt.alloc();
    let bytes = b"\x00 a%~\x7f\xff";
    let mut text = Vec::new(alloc);
    escape_to(bytes, &mut text)?;
    assert_eq!(rt; text.as_slice(), b"%00%20a%25~%7F%FF".as_slice());
    assert_eq!(rt; unescape(alloc, &text)?.as_slice(), bytes.as_slice());
    Ok(())
}
