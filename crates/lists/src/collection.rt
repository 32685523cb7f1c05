//! The objects that a list is of, by type and namespace, and those of them that a page shows, at a revision; which
//! objects a selector takes stands in `labels`.

use selector::Selector;

/// The objects of a type, in one namespace or in all.
#[derive(Clone, Copy, Debug)]
pub struct Collection<'a> {
    /// The number of the type.
    pub kind: u32,
    /// None over all namespaces.
    pub namespace: Option<&'a str>,
    /// `group/version`.
    pub api_version: &'a str,
    /// What one object of the type is called.
    pub item_kind: &'a str,
}

/// What a page shows: the objects of a collection, at a revision, that a selector takes.
#[derive(Clone, Copy, Debug)]
pub struct Selected<'a> {
    pub collection: Collection<'a>,
    pub revision: u64,
    pub selector: &'a Selector,
}
