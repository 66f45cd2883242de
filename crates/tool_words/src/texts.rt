//! The fixed texts of the program: those of the help that are not in the table of commands, those
//! of what commands print, and the parts of the lines on the error stream.
//!
//! A line on the error stream is put together from these parts, the words and numbers:
//! `PROGRAM`, then a file's word and `COLON` or `LINE` with a number and `COLON` where the refusal
//! names them, then the text of the refusal and `LINE_END`. A text that ends with a blank has a
//! path or a number after it.

/// The first line of the help.
pub const USAGE: &str = "usage: treesync COMMAND WORDS\n";
/// What a command's line of the help begins with.
pub const INDENT: &str = "  ";
/// Between a command's name and its operands in the help.
pub const BLANK: &str = " ";

/// Two commands of one node that differ; before its path and the numbers of their logs.
pub const SAME_NODE: &str = "same ";
/// A command leaves a node other than a directory and another fills a child of it; before the two
/// paths and the numbers of their logs.
pub const BELOW: &str = "below ";
/// Before the number of clashes.
pub const CLASHES: &str = "clashes ";

/// Why a command is left out; between its path and those of its chain, each after a blank.
pub const TAKEN: &str = " taken";
/// Before the number of commands that were left out.
pub const LEFT: &str = "left ";

/// Before the number of calls that changed a tree.
pub const APPLIED: &str = "applied ";
/// Before the number of calls that changed the trees of a round.
pub const SYNCED: &str = "synced ";

/// What each line begins with.
pub const PROGRAM: &str = "treesync: ";
/// Between a word, or a line's number, and what follows it.
pub const COLON: &str = ": ";
/// Between a file's word and the number of a line in it.
pub const LINE: &str = ": line ";
/// The end of each line.
pub const LINE_END: &str = "\n";

/// The arguments are invalid (status 2).
pub const WORDS_REFUSED: &str = "words refused";
/// A file could not be read (status 3).
pub const READ_FAILED: &str = "read failed";
/// The output could not be written (status 4).
pub const WRITE_FAILED: &str = "write failed";
/// No tree takes the log up to a command (status 6).
pub const NO_TREE: &str = "no tree takes this log";
/// Before the numbers of two logs that no tree takes both (status 7).
pub const LOGS: &str = "logs ";
/// Between the two numbers.
pub const AND: &str = " and ";
/// No tree takes both logs; before the path where they disagree.
pub const NO_COMMON_TREE: &str = "no common tree at ";
/// A tree holds another value than a set leads from or to; before the path (status 8).
pub const DIVERGED_AT: &str = "diverged at ";
/// A tree holds a node that keeps a set from it; before the path (status 9).
pub const BLOCKED_AT: &str = "blocked at ";
/// A call on a tree failed (status 10).
pub const TREE_FAILED: &str = "tree failed";
/// A call on a tree was denied (status 11).
pub const TREE_DENIED: &str = "tree denied";
/// A file passes a limit (status 12).
pub const TOO_LARGE: &str = "too large";
/// A rule names a log that is not there (status 13).
pub const NO_SUCH_LOG: &str = "no such log";
/// A rule names a command that its log does not have (status 13).
pub const NO_SUCH_COMMAND: &str = "no such command";
/// A command of the set is no log's; before its path (status 14).
pub const NOT_DRAWN: &str = "not drawn at ";
/// A command of the set does not fit the others; before its path (status 14).
pub const DOES_NOT_FIT: &str = "does not fit at ";
/// A log has a command that the set could take; before the log's number (status 14).
pub const CAN_ADD_LOG: &str = "can add log ";
/// Between that number and the command's path.
pub const AT: &str = " at ";
/// An operation of a script is refused, as are all down to `LABELLED`: its node is empty (status 15).
pub const MISSING: &str = "missing";
/// Something is at its node.
pub const EXISTS: &str = "exists";
/// The parent of its node is no directory.
pub const NO_PARENT: &str = "no-parent";
/// Its node is a directory.
pub const IS_DIR: &str = "is-dir";
/// Its node has a child.
pub const NOT_EMPTY: &str = "not-empty";
/// Its second path is under its first.
pub const INSIDE: &str = "inside";
/// A path would have too many names.
pub const TOO_DEEP: &str = "too-deep";
/// Its node is no directory.
pub const NOT_DIR: &str = "not-dir";
/// A label would stand in a log of version 1.
pub const LABELLED: &str = "labelled";
/// Memory ran out (status 16).
pub const OUT_OF_MEMORY: &str = "out of memory";
/// The snapshot's tree does not take a command of the log (status 17).
pub const NOT_TAKEN: &str = "not taken";
/// A set does not follow those before it; before the path at which it does not (status 18).
pub const DOES_NOT_FOLLOW: &str = "does not follow at ";

/// The first line is not the form's (status 5, and so all below).
pub const HEADER: &str = "header";
/// A line has another number of fields than its form.
pub const FIELDS: &str = "fields";
/// A form has more lines than its limit.
pub const TOO_MANY: &str = "too-many";
/// A preference list has more wide rules than its limit.
pub const TOO_WIDE: &str = "too-wide";
/// A field is not the number of a log.
pub const NUMBER: &str = "number";
/// A field is not the text of a path.
pub const PATH: &str = "path";
/// A field is not the text of a value.
pub const VALUE: &str = "value";
/// A command's old and new value are equal.
pub const SAME: &str = "same";
/// A row of a snapshot has no value.
pub const EMPTY: &str = "empty";
/// A row of a snapshot is not above the one before it.
pub const ORDER: &str = "order";
/// No earlier row of a snapshot makes the parent a directory.
pub const PARENT: &str = "parent";
/// The text ends before its end line.
pub const END: &str = "end";
/// The end line has another number than that of the lines.
pub const COUNT: &str = "count";
/// Bytes follow the end line.
pub const AFTER: &str = "after";
