//! Calls of the kinds, tried at fixed values: each cell of each kind's table of pairs, and each
//! call that needs memory. All of it is tests.
#![tactic(auto)]

#[cfg(test)]
mod calls;
#[cfg(test)]
mod effects;
#[cfg(test)]
mod pairs;
#[cfg(test)]
mod tables;
#[cfg(test)]
mod tests;
