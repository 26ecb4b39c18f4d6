//! Tests of calls that are refused memory: what they were called on stays as it was, so that the same call succeeds next
//! time. `rt try --test --fail-alloc N` refuses the Nth allocation of each test; `bench/refused.py` goes through them.
#![tactic(auto)]

#[cfg(test)]
mod calls;
