//! The words that begin the lines of a script.

ghost use Rattle.std.specs.Prelude.{◌≡◌};
ghost use Rattle.record_core.specs.Scripts.{short_word, long_word, label_word};

use sync_command::Version;

/// The word of a line of two fields.
#[derive(Clone, Copy)]
pub(crate) enum ShortWord {
    Mkdir,
    Del,
    Deltree,
}

/// The word of a line of three fields.
#[derive(Clone, Copy)]
pub(crate) enum LongWord {
    Put,
    Move,
    Copy,
    Label,
}

/// The word of a line of two fields, where the first of them is one.
pub(crate) fn short_word(field: &[u8]) -> Option<ShortWord>
    ensures { result ≡ short_word field.now }
{
    if field == b"mkdir".as_slice() {
        Some(ShortWord::Mkdir)
    } else if field == b"del".as_slice() {
        Some(ShortWord::Del)
    } else if field == b"deltree".as_slice() {
        Some(ShortWord::Deltree)
    } else {
        None
    }
}

/// The word of a line of three fields in a script of this version, where the first of them is one.
pub(crate) fn long_word(version: Version, field: &[u8]) -> Option<LongWord>
    ensures { result ≡ long_word version field.now }
{
    if field == b"put".as_slice() {
        Some(LongWord::Put)
    } else if field == b"move".as_slice() {
        Some(LongWord::Move)
    } else if field == b"copy".as_slice() {
        Some(LongWord::Copy)
    } else if field == b"label".as_slice() {
        label_word(version)
    } else {
        None
    }
}

/// The word of a line that gives a label, which scripts of version 1 have not.
fn label_word(version: Version) -> Option<LongWord>
    ensures { result ≡ label_word version }
{
    match version {
        Version::One => None,
        Version::Two => Some(LongWord::Label),
    }
}
