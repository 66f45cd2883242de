//! Worked cases of ports and live trees, written down by hand: the adapters over what fails, and trees read whole.
#![tactic(auto)]

#[cfg(test)]
mod ports;
#[cfg(test)]
mod trees;
