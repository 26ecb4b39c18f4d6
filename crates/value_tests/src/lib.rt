//! Tests of what no line of data can say: values made by hand, types of a caller's own, closures, iterators, and
//! limits of 65,535 octets.
#![tactic(auto)]

#[cfg(test)]
mod anchors;
#[cfg(test)]
mod fields;
#[cfg(test)]
mod hashes;
#[cfg(test)]
mod keys;
#[cfg(test)]
mod limits;
#[cfg(test)]
mod names;
#[cfg(test)]
mod numbers;
#[cfg(test)]
mod records;
#[cfg(test)]
mod streams;
