//! Tests of what only linked calls show of a server and a client in one run: boxed indexes, links that fail, settings and
//! counts that no program is given, moves up to a bound, and refused memory. What the programs come to is in `tests/` at the
//! top.
#![tactic(auto)]

#[cfg(test)]
mod events;
#[cfg(test)]
mod given;
#[cfg(test)]
mod indexes;
#[cfg(test)]
mod links;
#[cfg(test)]
mod playing;
#[cfg(test)]
mod rows;
#[cfg(test)]
mod shown;
