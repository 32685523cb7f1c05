//! Tests of what only linked calls show of names, of what is asked, and of the client: its cache, its side of the wire, and
//! informers with all that stands on them (`informers`). What programs answer is in `tests/` at the top.
#![tactic(auto)]

#[cfg(test)]
mod cached;
#[cfg(test)]
mod decoded;
#[cfg(test)]
mod informers;
#[cfg(test)]
mod queries;
#[cfg(test)]
mod replies;
#[cfg(test)]
mod rows;
