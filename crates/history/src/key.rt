//! The key of an object: the number of its type, its namespace and its name. Which names are valid is decided in the
//! crate `names`.

/// What names an object: the number of its type, its namespace and its name.
#[derive(Debug, Drop)]
pub struct Key {
    pub kind: u32,
    pub namespace: String,
    pub name: String,
}
