//! What a watch begins from. How one is opened stands in the crate `watchline`.

use selector::Selector;

/// What a watch sends first.
#[derive(Clone, Copy, Debug, PartialEq, Eq)]
pub enum InitialEvents {
    /// It names a version: the changes after it alone.
    Changes,
    /// It names none, and objects of it stand: each as added.
    Objects,
    /// It names none, and no object of it stands.
    NoneSelected,
}

/// What a watch begins from.
#[derive(Debug, Drop)]
pub struct WatchFrom {
    /// The number of the type.
    pub kind: u32,
    /// None over all namespaces.
    pub namespace: Option<String>,
    pub selector: Selector,
    /// The revision after which changes are sent.
    pub position: u64,
    pub initial: InitialEvents,
    /// Whether it sends bookmarks.
    pub bookmarks: bool,
    /// In seconds; 0 is none.
    pub timeout: u64,
}
