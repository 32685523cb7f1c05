//! Contents of objects, as trees under a schema. Schemas stand in the crate `schema`, whole objects in `objects`.
//!
//! Promises: a value is read as exactly the content that it spells, or as the first fault in its shape with its path;
//! one content is put over another path by path; where lists and maps of its type have become atomic, a content keeps all
//! its other paths, and prints as before.
//! Stands on `pathmap` for maps of paths and on `schema` for shapes.
#![tactic(auto)]

mod borrowed;
mod borrowed_items;
mod bounds;
mod carried;
mod carried_law;
mod fault;
mod items;
mod omitted;
mod plain;
mod print;
mod print_law;
mod print_parts;
mod pushing;
mod read;
mod tree;
mod without;
mod write;
mod write_items;

pub use carried_law::carried_is_one;
pub use fault::{Cause, ReadFault};
pub use omitted::Omitted;
pub use pathmap::Part;
pub use print_law::{
    contents_are_kept, contents_are_well_typed, contents_have_places, printed_has_no_float,
    printed_is_textual, printed_reads_back, readings_are_well_typed,
};
pub use tree::Tree;
