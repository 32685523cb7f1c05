//! What replies say to a client: the body of a list's answer, and a line of a watch (Kubernetes API Concepts,
//! "Retrieving large results sets in chunks" and "Efficient detection of changes"). Framing is `wireclient`'s.
//!
//! What is read is of the asked type and namespace; where it isn't, the first thing that is wrong with it is told.
//!
//! What is kept of an object is what its own text says.
//!
//! Stands on `serde_json` and `json_values` for JSON, `names` for versions, `indexer` for objects; its law on `fieldpath` for texts that
//! read back.
#![tactic(auto)]

mod fault;
mod kinds;
mod law;
mod line;
mod malformed;
mod members;
mod object;
mod page;
mod wanted;

pub use fault::DecodeFault;
pub use law::objects_are_their_texts;
pub use line::{Line, read_line};
pub use malformed::Malformed;
pub use page::{Page, read_page};
pub use wanted::{Source, Wanted};
