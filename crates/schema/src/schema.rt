//! Schemas as values. `step` and `place` walk them; the crate `api_types` makes them of JSON and says which keep the rules.

/// How a list merges (Server-Side Apply, "Merge strategy").
#[derive(Debug, Drop)]
pub enum ListKind {
    /// Replaced as a whole.
    Atomic,
    /// Unique scalars.
    Set,
    /// Structs, unique by the key fields of these names.
    Keyed(Vec<String>),
}

/// A structural schema. The flag of a struct or map says whether it is atomic.
#[derive(Debug, Drop)]
pub enum Schema {
    /// A string.
    Text,
    /// A whole number of 64 bits.
    Whole,
    /// A truth value.
    Truth,
    /// Fields in byte order of their names.
    Struct(Vec<(String, Schema)>, bool),
    /// A map from any names to values of one schema.
    MapOf(Box<Schema>, bool),
    /// A list of items of one schema.
    List(Box<Schema>, ListKind),
}
