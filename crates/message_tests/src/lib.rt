//! Tests of messages that no line of data says: limits, values made by hand, and proofs in one word.
#![tactic(auto)]

#[cfg(test)]
mod hex;
#[cfg(test)]
mod limits;
#[cfg(test)]
mod messages;
#[cfg(test)]
mod summary;
