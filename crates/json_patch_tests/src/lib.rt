//! Tests of patches of JSON values, by public calls alone. Each file says what its rows' words mean.
#![tactic(auto)]

#[cfg(test)]
mod json_patches;
#[cfg(test)]
mod merge_patches;
#[cfg(test)]
mod pointers;
