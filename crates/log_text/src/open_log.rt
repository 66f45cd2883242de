//! A log that may have lost its end.

ghost use Rattle.std.specs.Prelude.{◌≡◌, IfOk, MatchResult, unwrap_or};
ghost use Rattle.std.specs.List.{AllByRecursion};
ghost use Rattle.log_text.specs.Logs.{IsOfVersion};
ghost use Rattle.log_text.specs.Pieces.{head_if};
ghost use Rattle.log_text.specs.OpenLogs.{IsOpenLog, FailsOpenLog, ended_part};

use crate::commands::CommandList;
use crate::faults::LogFault;
use crate::pieces::LineReader;
use std::alloc::Global;
use sync_command::{Command, Version};

/// The bytes up to the last line feed.
fn ended_part(text: &[u8]) -> &[u8]
    ensures { result.now ≡ ended_part text.now }
{
    let mut end = text.len();
    'bytes: while end > 0 {
        if text[end - 1] == b'\n' {
            return &text[..end];
        }
        end -= 1;
    }
    &text[..0]
}

/// The version, where a first line has it, and else version 1.
fn version_if(opened: bool, version: Version) -> Version
    ensures { result ≡ unwrap_or (head_if opened version) Version.One }
{
    if opened { version } else { Version::One }
}

/// Reads the text of a log that may have lost its end: the version, the commands, and whether the right
/// end line is there.
///
/// Bytes after the last line feed are dropped unjudged. A text without a line feed gives the empty list
/// in version 1. A refusal names the first line that has a fault, and End is none of them.
pub fn read_open_log(alloc: Global, text: &[u8]) -> Result<(Version, Vec<Command>, bool), LogFault>
    ensures reads { MatchResult result (λ r. IsOpenLog (ended_part text.now) r.0 r.1.items r.2)
        (λ e. FailsOpenLog (ended_part text.now) e) }
    ensures printable { IfOk result (λ r. AllByRecursion (IsOfVersion r.0) r.1.items) }
{
    let ended_lines = ended_part(text);
    let mut form = CommandList::new(alloc);
    let mut lines = LineReader::new(alloc);
    lines.feed(&mut form, ended_lines)?;
    let opened = lines.has_opened();
    let ended = lines.finish_open(&form)?;
    let (version, commands) = form.into_parts();
    Ok((version_if(opened, version), commands, ended))
}
