//! Tests of what only linked calls show of the server: refused memory, what is kept of connections that are over, plans, and the
//! library of its program; turns over streams that fail, and sockets within this process (`streams`); and a controller beside a
//! server (`controller`). What programs answer is in `tests/` at the top.
//!
//! What is done to hubs are rows of text, which functions of `test_rows` play that know nothing of a hub: rows cost the prover
//! nothing, and here stands no more of a hub than its calls (`hub_rows`).
#![tactic(auto)]

#[cfg(test)]
mod connections;
#[cfg(test)]
mod controller;
#[cfg(test)]
mod effects;
#[cfg(test)]
mod given;
#[cfg(test)]
mod hub_rows;
#[cfg(test)]
mod plans;
#[cfg(test)]
mod refused_memory;
#[cfg(test)]
mod server_programs;
#[cfg(test)]
mod streams;
