//! Tests of a load, over the public calls of `load_mix` and `load_rules`.
#![tactic(auto)]

#[cfg(test)]
mod of_load_mix;
