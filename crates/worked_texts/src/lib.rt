//! Worked cases of texts: paths, values, and logs in pieces, written down by hand. The cases of all libraries stand in
//! crates of their own, since a crate with tests is proved twice; what the program shows of them stands in checks/rows.txt.
#![tactic(auto)]

pub mod lines;
#[cfg(test)]
mod paths;
#[cfg(test)]
mod texts;
#[cfg(test)]
mod values;
