//! Tests of what only linked calls show of the contents of objects and of their owners: paths and sets of them, schemas, texts
//! that are read back, and writes that are refused memory. What the programs answer is in `tests/` at the top.
//!
//! Each call stands in a helper with no clause, so that a test carries few facts. An example is a name and its rows of text
//! (`test_rows`): rows cost the prover nothing, and each function some seconds.
#![tactic(auto)]

#[cfg(test)]
mod borrowed;
#[cfg(test)]
mod contents;
#[cfg(test)]
mod elements;
#[cfg(test)]
mod fields_v1;
#[cfg(test)]
mod given;
#[cfg(test)]
mod key_names;
#[cfg(test)]
mod object_texts;
#[cfg(test)]
mod owned;
#[cfg(test)]
mod owners;
#[cfg(test)]
mod readings;
#[cfg(test)]
mod sets;
#[cfg(test)]
mod two_contents;
#[cfg(test)]
mod types_files;
