//! Tests of what only linked calls show of the crates over the database: of the store, and of the tables below it. What
//! programs answer is in `tests/` at the top.
#![tactic(auto)]

#[cfg(test)]
mod rows;
#[cfg(test)]
mod stores;
#[cfg(test)]
mod tables;
