//! Tests of the calls that the program makes of its words. They stand above those calls, so that each is proved once.
#![tactic(auto)]

#[cfg(test)]
mod over_memory;
