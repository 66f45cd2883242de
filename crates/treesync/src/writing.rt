//! Lines that are written as they come, through a block, and those of clashes.

ghost use Rattle.std.specs.Prelude.{◌≡◌, ◌+◌, ◌++◌, ◌∷◌, decimal, length, IfErr, IfOk, OnOk};
ghost use Rattle.std.specs.List.{concat};
ghost use Rattle.sync_port.specs.States.{IfKnown};
ghost use Rattle.sync_port.specs.Ports.{SinkFaults};
ghost use Rattle.log_text.specs.Frame.{ended};
ghost use Rattle.refluent.specs.Joints.{path_at};
ghost use Rattle.treesync.specs.Conflicts.{clash_lines, clash_text, lines_of, logs_text, node_text};
ghost use Rattle.treesync.specs.Outputs.{ClashLines, number_line, text_in};
ghost use Rattle.treesync.specs.Writing.{PassesOn, WriteFaults, WritesAll};
ghost use Rattle.treesync.specs.declared.writing.WriteFault.TheVariants.{Failed, Memory};

use clash_list::{Clash, Clashes};
use itoa::Buffer;
use refluent::Joint;
use std::alloc::Global;
use sync_path::NoMemory;
use sync_port::{Sink, SinkFailed, send};
use tool_words::texts;

/// How many bytes are gathered before they are sent.
const BLOCK: usize = 65_536;

/// Why lines were not all written.
#[derive(Clone, Copy, Debug)]
pub enum WriteFault {
    /// The sink failed, which it counted.
    Failed,
    /// Memory ran out, or there are more lines than a u64 counts.
    Memory,
}

impl From<NoMemory> for WriteFault {
    ghost from_gives = { λ _ fault. fault ≡ Memory };

    fn from(_: NoMemory) -> WriteFault {
        WriteFault::Memory
    }
}

impl From<SinkFailed> for WriteFault {
    ghost from_gives = { λ _ fault. fault ≡ Failed };

    fn from(_: SinkFailed) -> WriteFault {
        WriteFault::Failed
    }
}

/// Appends the number.
pub fn push_number(line: &mut Vec<u8>, number: u64) -> Result<(), NoMemory>
    ensures { OnOk result (line.new.items ≡ line.old.items ++ decimal number) }
{
    let mut digits = Buffer::new();
    line.extend_from_slice(digits.format(number).as_bytes())?;
    Ok(())
}

/// Appends the text of the joint's node at a place, or nothing past the last.
pub fn push_node(line: &mut Vec<u8>, joint: &Joint, place: usize) -> Result<(), NoMemory>
    ensures { OnOk result
        (line.new.items ≡ line.old.items ++ node_text (path_at joint.now.nodes place)) }
{
    if joint.nodes() <= place {
        return Ok(());
    }
    joint.node(place).print_to(line)
}

/// Appends the numbers of the logs of two commands, and ends the line.
fn push_logs(line: &mut Vec<u8>, left: u32, right: u32) -> Result<(), NoMemory>
    ensures { OnOk result (line.new.items ≡ line.old.items ++ ended (logs_text left right)) }
{
    line.push(b' ')?;
    push_number(line, left as u64)?;
    line.push(b' ')?;
    push_number(line, right as u64)?;
    line.push(b'\n')?;
    Ok(())
}

/// Appends the line of a clash.
fn push_clash(line: &mut Vec<u8>, joint: &Joint, clash: Clash) -> Result<(), NoMemory>
    ensures { OnOk result
        (line.new.items ≡ line.old.items ++ ended (clash_text joint.now.nodes clash)) }
{
    match clash {
        Clash::Same { node, left, right } => {
            line.extend_from_slice(texts::SAME_NODE.as_bytes())?;
            push_node(line, joint, node)?;
            push_logs(line, left, right)
        }
        Clash::Below {
            node,
            child,
            left,
            right,
        } => {
            line.extend_from_slice(texts::BELOW.as_bytes())?;
            push_node(line, joint, node)?;
            line.push(b' ')?;
            push_node(line, joint, child)?;
            push_logs(line, left, right)
        }
    }
}

/// Sends the block where it is full.
pub fn send_full<O: Sink>(block: &mut Vec<u8>, out: &mut O) -> Result<(), SinkFailed>
    ensures faults { SinkFaults result (O.sink out.old) (O.sink out.new) }
    ensures contents { IfKnown (O.sink out.old) (O.sink out.new)
        (PassesOn block.old.items block.new.items result) }
{
    if block.len() < BLOCK {
        return Ok(());
    }
    send(out, block)?;
    block.clear();
    Ok(())
}

/// Writes the line of a clash through the block.
fn write_line<O: Sink>(
    joint: &Joint,
    clash: Clash,
    block: &mut Vec<u8>,
    out: &mut O,
) -> Result<(), WriteFault>
    ensures faults { WriteFaults result (O.sink out.old) (O.sink out.new) }
    ensures contents { IfKnown (O.sink out.old) (O.sink out.new)
        (PassesOn (block.old.items ++ ended (clash_text joint.now.nodes clash)) block.new.items
        result) }
{
    push_clash(block, joint, clash)?;
    send_full(block, out)?;
    Ok(())
}

/// One more than the count.
pub fn one_more(count: u64) -> Result<u64, WriteFault>
    ensures more { IfOk result (λ n. n ≡ count + 1) }
    ensures full { IfErr result (λ fault. fault ≡ Memory) }
{
    match count.checked_add(1) {
        Some(more) => Ok(more),
        None => Err(WriteFault::Memory),
    }
}

/// Writes the lines of the clashes that are to come through the block, and gives their number.
fn write_lines<O: Sink>(
    joint: &Joint,
    clashes: &mut Clashes<'_>,
    block: &mut Vec<u8>,
    out: &mut O,
) -> Result<u64, WriteFault>
    ensures faults { WriteFaults result (O.sink out.old) (O.sink out.new) }
    ensures contents { IfKnown (O.sink out.old) (O.sink out.new)
        (PassesOn (block.old.items ++ concat (lines_of joint.now.nodes clashes.old))
        block.new.items result) }
    ensures number { IfOk result (λ n. n ≡ length clashes.old) }
{
    let mut count = 0;
    'clashes: while let Some(clash) = clashes.next() {
        write_line(joint, clash, block, out)?;
        count = one_more(count)?;
    }
    Ok(count)
}

/// Appends the line that says how many there are of what the word names.
fn push_number_line(block: &mut Vec<u8>, word: &str, number: u64) -> Result<(), NoMemory>
    ensures { OnOk result (block.new.items ≡ block.old.items ++ number_line word.now number) }
{
    block.extend_from_slice(word.as_bytes())?;
    push_number(block, number)?;
    block.push(b'\n')?;
    Ok(())
}

/// Writes the block, and after it how many there are of what the word names.
pub fn write_number<O: Sink>(
    word: &str,
    number: u64,
    block: &mut Vec<u8>,
    out: &mut O,
) -> Result<(), WriteFault>
    ensures faults { WriteFaults result (O.sink out.old) (O.sink out.new) }
    ensures contents { IfKnown (O.sink out.old) (O.sink out.new)
        (WritesAll (block.old.items ++ number_line word.now number) result) }
{
    push_number_line(block, word, number)?;
    send(out, block)?;
    Ok(())
}

/// Writes a line for each clash of the joint's drawn commands, in order, and then how many there are, which it gives.
/// It flushes nothing. Of the text only a block is kept at a time, and nothing of a clash once its line is written.
///
/// `Failed` comes only where a fault of the sink was counted. After a refusal, which may be out of memory at any
/// line, the sink gained the first bytes of the text.
pub fn write_clashes<O: Sink>(alloc: Global, joint: &Joint, out: &mut O) -> Result<u64, WriteFault>
    ensures faults { WriteFaults result (O.sink out.old) (O.sink out.new) }
    ensures contents { IfKnown (O.sink out.old) (O.sink out.new)
        (WritesAll (text_in (ClashLines (clash_lines joint.now))) result) }
    ensures number { IfOk result (λ n. n ≡ length (clash_lines joint.now)) }
{
    let mut clashes = Clashes::new(alloc, joint)?;
    let mut block = Vec::new(alloc);
    let number = write_lines(joint, &mut clashes, &mut block, out)?;
    write_number(texts::CLASHES, number, &mut block, out)?;
    Ok(number)
}
