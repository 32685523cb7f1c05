//! An informer (client-go's word): a client that mirrors a server's objects of one type in an indexer, and tells what
//! happened to each (Kubernetes API Concepts, "Efficient detection of changes"). Its caller has the connections: as long
//! as it wishes, it
//!
//! 1. sends the bytes of `next_request` on a new connection, and drops the old one;
//! 2. hands each piece that comes to `feed`, while the informer `is_awaiting_reply`, and says `closed` at the connection's end;
//! 3. takes notices, and reads objects and indexes from `indexer`;
//! 4. waits a moment where `relist_reason` tells why the reply was given up. What is kept stays meanwhile.
//!
//! `mirroring` has this loop. An informer lists in pages, then watches from the list's revision. However replies are cut,
//! the objects are the server's at the revision that `revision` answers, if the server answers what it is asked: the laws
//! of the crate say so.
//!
//! Stands on `decoder` for what a reply says, `wireclient` for its items and a request's bytes, `indexer` for
//! objects, `names` for namespaces.
#![tactic(auto)]

mod informer;
mod laws;
mod merging;
mod mirror;
mod notice;
mod notifying;
mod paged_list;
mod pages;
mod receiving;
mod relist_reason;
mod reply;
mod requests;
mod response;
mod settings;
mod sync;
mod taking;

pub use decoder::{Malformed, Source};
pub use informer::Informer;
pub use laws::{
    follows_the_server, mirrors_the_server, notices_lead_on, notices_replay,
    notices_replay_exactly, relist_reasons_are_exact, takes_fitting_items, takes_whole_lists,
};
pub use notice::Notice;
pub use relist_reason::RelistReason;
pub use settings::SettingsFault;
