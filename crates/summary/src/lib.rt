//! How many objects have each value of one label, by the notices of an informer. The objects are `reflector`'s.
//!
//! A summary that was told each notice of some objects has their counts, and the apply that it writes says these. After
//! `Informer::restart` a new summary begins with the new notices.
//!
//! Stands on `reflector` for notices, `indexer` for objects, `wireclient` for a request's bytes.
#![tactic(auto)]

mod applying;
mod counting;
mod fault;
mod law;
mod summary;

pub use fault::CountFault;
pub use law::{counts_follow, counts_those_kept};
pub use summary::Summary;
