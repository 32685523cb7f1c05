//! Tests of what only linked calls show of scripts: where a writer, a link, or a socket fails. What the programs print is in
//! `tests/scripts` at the top.
#![tactic(auto)]

#[cfg(test)]
mod failing;
#[cfg(test)]
mod failing_net;
