//! Tests of signing, verifying and transactions that no line of data says: values made by hand, keys of the test's own, and
//! calls over the caller's memory.
#![tactic(auto)]

#[cfg(test)]
mod borrowed;
#[cfg(test)]
mod fixtures;
#[cfg(test)]
mod places;
#[cfg(test)]
mod sets;
#[cfg(test)]
mod sign_refusals;
#[cfg(test)]
mod signing;
#[cfg(test)]
mod strings;
#[cfg(test)]
mod transactions;
#[cfg(test)]
mod verifying;
