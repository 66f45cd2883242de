//! What a job answers, before it is printed.

ghost use Rattle.std.specs.Prelude.{◌≡◌};
ghost use Rattle.treesync.specs.Answering.{of_explained, of_joint, of_text};

use crate::Refusal;
use crate::explain::Explained;
use refluent::Joint;

/// What a job answers.
#[derive(Drop)]
pub enum Answer {
    /// A text, which is whole before its first byte is written.
    Text(Vec<u8>),
    /// The joint of logs. A line for each of its clashes is written as they come.
    Clashes(Joint),
    /// The joint of logs and a merger. A line for each command that the merger leaves out is written as they come.
    Reasons(Explained),
}

/// The answer of a job that makes its text whole.
pub fn of_text(text: Result<Vec<u8>, Refusal>) -> Result<Answer, Refusal>
    ensures { result ≡ of_text text }
{
    match text {
        Ok(text) => Ok(Answer::Text(text)),
        Err(refusal) => Err(refusal),
    }
}

/// The answer of a job that lists clashes.
pub fn of_joint(joint: Result<Joint, Refusal>) -> Result<Answer, Refusal>
    ensures { result ≡ of_joint joint }
{
    match joint {
        Ok(joint) => Ok(Answer::Clashes(joint)),
        Err(refusal) => Err(refusal),
    }
}

/// The answer of a job that lists reasons.
pub fn of_explained(explained: Result<Explained, Refusal>) -> Result<Answer, Refusal>
    ensures { result ≡ of_explained explained }
{
    match explained {
        Ok(explained) => Ok(Answer::Reasons(explained)),
        Err(refusal) => Err(refusal),
    }
}
