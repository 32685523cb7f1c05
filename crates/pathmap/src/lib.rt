//! Finite maps from paths, as tries: what contents of objects and sets of paths are made of. Which paths a schema has
//! is `schema`'s.
//!
//! Promises: each call is its equation over whole maps (`over`, `without`, `changed` ..).
//! Stands on `fieldpath` for paths and their order.
#![tactic(auto)]

mod copying;
mod fields;
mod find;
mod held;
mod insert;
mod parts;
mod pathmap;
mod paths;
mod pick;
mod place;
mod under;
mod walk;
mod without;

pub use held::PathValue;
pub use parts::Part;
pub use pathmap::PathMap;
pub use under::put_under;
