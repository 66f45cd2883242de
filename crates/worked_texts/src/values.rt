//! Values and commands: each call that allocates, with ample memory.

use crate::lines::command;
use std::test::Fail;
use sync_command::{Bytes, Kind, Label, Value};

#[test]
fn values_are_made(rt: HostRuntime) -> Result<(), Fail> {
    let alloc = rt.alloc();
    let file = Value::File(Bytes::new(alloc, b"a %~\xFF")?);
    let taken = Value::File(Bytes::from_vec(alloc, b"a %~\xFF".to_vec(alloc)?)?);
    let dir = Value::Dir(Label::new(alloc, b"x ")?);
    assert!(rt; file.same(&taken) && file.kind() == Kind::File && !file.is_dir());
    assert!(rt; dir.is_dir() && !dir.is_empty() && !dir.same(&Value::Dir(Label::empty(alloc))));
    Ok(())
}

#[test]
fn commands_are_copied_inverted_and_printed(rt: HostRuntime) -> Result<(), Fail> {
    let alloc = rt.alloc();
    let back = command(alloc, &("a/b", "d:x", "f:1"))?
        .copy(alloc)?
        .inverse(alloc)?;
    let mut out = Vec::new(alloc);
    back.print_to(&mut out)?;
    assert!(rt; out.as_slice() == b"a/b f:1 d:x".as_slice());
    Ok(())
}
