//! What stands at a path. How a schema leads to a place stands in `step`.

/// What stands at a path that a schema gives a place.
#[derive(Clone, Copy, Debug, PartialEq, Eq)]
pub enum Place {
    /// A scalar or an atomic value.
    Leaf,
    /// An item of a set.
    SetItem,
    /// An item of a list that is a map by key fields.
    MapItem,
}
