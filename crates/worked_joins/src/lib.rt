//! Worked cases of joins: sums of small logs, joints, and the reasons of what a merger leaves out, written down by hand.
#![tactic(auto)]

#[cfg(test)]
mod joins;
#[cfg(test)]
mod logs;
#[cfg(test)]
mod reasons;
#[cfg(test)]
mod sums;
