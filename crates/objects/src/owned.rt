//! The content of an object and who owns it. What a write does to it stands in `ownership`.

ghost use Rattle.std.specs.Prelude.{◌≡◌};
ghost use Rattle.std.specs.FinMap as fin;
ghost use Rattle.pathmap.specs.Contents.{nothing};

use crate::managers::Managers;
use std::alloc::Global;
use typed::Tree;

/// The content of an object, and who owns which paths of it.
#[derive(Drop)]
pub struct Owned {
    pub tree: Tree,
    pub managers: Managers,
}

impl Owned {
    /// No content, owned by nobody.
    pub fn empty(alloc: Global) -> Owned
        ensures tree { result.tree ≡ nothing }
        ensures managers { result.managers ≡ fin.empty }
    {
        Owned {
            tree: Tree::empty(alloc),
            managers: Managers::new(alloc),
        }
    }
}
