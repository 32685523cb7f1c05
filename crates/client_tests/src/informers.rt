//! Tests of what only linked calls show of informers, summaries and mirrors, against replies written by hand: refused memory,
//! summaries, catching up, streams and outputs that fail, and boxed indexes.
//!
//! One function holds an informer and doesn't drop it; all else are rows that are played on it, but for the test of boxed
//! indexes and the program.

mod boxed;
mod looping;
mod mirror_programs;
mod mirrors;
mod playing;
mod refused;
mod replies;
mod summing;
mod syncing;
