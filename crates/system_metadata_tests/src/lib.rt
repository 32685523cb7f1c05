//! Tests of what the system says in metadata: known moments as others write them, uids as another crate reads them, and each
//! call once.
#![tactic(auto)]

#[cfg(test)]
mod metadata;
#[cfg(test)]
mod taken;
