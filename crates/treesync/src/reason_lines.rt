//! The lines of reasons, written as they come.

ghost use Rattle.std.specs.Prelude.{◌≡◌, ◌++◌, length, IfOk, OnOk};
ghost use Rattle.std.specs.List.{concat};
ghost use Rattle.sync_port.specs.States.{IfKnown};
ghost use Rattle.log_text.specs.Frame.{ended};
ghost use Rattle.treesync.specs.Explain.{reason_lines, reason_lines_of, reason_text, via_text};
ghost use Rattle.treesync.specs.Outputs.{ReasonLines, text_in};
ghost use Rattle.treesync.specs.Writing.{PassesOn, WriteFaults, WritesAll};

use crate::explain::Explained;
use crate::writing::{WriteFault, one_more, push_node, push_number, send_full, write_number};
use explain_core::{Reason, Reasons};
use refluent::Joint;
use std::alloc::Global;
use sync_path::NoMemory;
use sync_port::Sink;
use tool_words::texts;

/// Appends the paths of a chain, each after a blank.
fn push_via(line: &mut Vec<u8>, joint: &Joint, via: &[usize]) -> Result<(), NoMemory>
    ensures { OnOk result
        (line.new.items ≡ line.old.items ++ via_text joint.now.nodes via.now) }
{
    'places: for place in via {
        line.push(b' ')?;
        push_node(line, joint, *place)?;
    }
    Ok(())
}

/// Appends the line of a reason.
fn push_reason(line: &mut Vec<u8>, joint: &Joint, reason: &Reason) -> Result<(), NoMemory>
    ensures { OnOk result
        (line.new.items ≡ line.old.items ++ ended (reason_text joint.now.nodes reason.now)) }
{
    push_number(line, reason.log as u64)?;
    line.push(b' ')?;
    push_node(line, joint, reason.node)?;
    line.extend_from_slice(texts::TAKEN.as_bytes())?;
    push_via(line, joint, reason.via.as_slice())?;
    line.push(b'\n')?;
    Ok(())
}

/// Writes the line of a reason through the block.
fn write_reason<O: Sink>(
    joint: &Joint,
    reason: &Reason,
    block: &mut Vec<u8>,
    out: &mut O,
) -> Result<(), WriteFault>
    ensures faults { WriteFaults result (O.sink out.old) (O.sink out.new) }
    ensures contents { IfKnown (O.sink out.old) (O.sink out.new)
        (PassesOn (block.old.items ++ ended (reason_text joint.now.nodes reason.now))
        block.new.items result) }
{
    push_reason(block, joint, reason)?;
    send_full(block, out)?;
    Ok(())
}

/// Writes the lines of the reasons that are to come through the block, and gives their number.
fn write_lines<O: Sink>(
    joint: &Joint,
    reasons: &mut Reasons<'_>,
    block: &mut Vec<u8>,
    out: &mut O,
) -> Result<u64, WriteFault>
    ensures faults { WriteFaults result (O.sink out.old) (O.sink out.new) }
    ensures contents { IfKnown (O.sink out.old) (O.sink out.new)
        (PassesOn (block.old.items ++ concat (reason_lines_of joint.now.nodes reasons.old))
        block.new.items result) }
    ensures number { IfOk result (λ n. n ≡ length reasons.old) }
{
    let mut count = 0;
    'reasons: while let Some(reason) = reasons.next()? {
        write_reason(joint, &reason, block, out)?;
        count = one_more(count)?;
    }
    Ok(count)
}

/// Writes a line for each drawn command that a merger leaves out, by its log and then in the admissible order, and then
/// how many there are, which it gives. It flushes nothing. Of the text only a block is kept at a time, and nothing of a
/// reason once its line is written.
///
/// `Failed` comes only where a fault of the sink was counted. After a refusal, which may be out of memory at any
/// line, the sink gained the first bytes of the text.
pub fn write_reasons<O: Sink>(
    alloc: Global,
    explained: &Explained,
    out: &mut O,
) -> Result<u64, WriteFault>
    ensures faults { WriteFaults result (O.sink out.old) (O.sink out.new) }
    ensures contents { IfKnown (O.sink out.old) (O.sink out.new)
        (WritesAll (text_in (ReasonLines (reason_lines explained.now.0 explained.now.1)))
        result) }
    ensures number { IfOk result (λ n. n ≡ length (reason_lines explained.now.0 explained.now.1)) }
{
    let mut reasons = explained.reasons(alloc)?;
    let mut block = Vec::new(alloc);
    let number = write_lines(explained.joint(), &mut reasons, &mut block, out)?;
    write_number(texts::LEFT, number, &mut block, out)?;
    Ok(number)
}
