//! Tests of the calls on stages that no program reaches: plans, feet, and certificates of longest chains. They stand above
//! all crates that they try, so that each is proved once.
#![tactic(auto)]

#[cfg(test)]
mod certificates;
#[cfg(test)]
mod feet;
#[cfg(test)]
mod large;
#[cfg(test)]
mod plans;
