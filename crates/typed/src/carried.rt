//! What becomes of a content where some sets, map lists and granular maps of its type have become atomic. Which change of
//! a schema is lawful stands in the crate `schema`; contents are printed in `print` and read in `read`.

ghost use Rattle.schema.specs.Shape.{shape};
ghost use Rattle.typed.specs.Carried.{IsCarried, LeavesStand, carried};
ghost use Rattle.typed.specs.Fitting.{IsContent};
ghost use Rattle.typed.specs.Printing.{print};

use crate::fault::ReadFault;
use crate::tree::Tree;
use schema::NewSchema;
use std::alloc::{AllocError, Global};

impl Tree {
    ghost use Rattle.std.specs.Prelude.{◌≡◌, IfOk};

    /// This content under the new schema. Where a set, map list or granular map has become atomic, its leaf is the value
    /// that was printed there; all else stays (Server-Side Apply, "Compatibility across topology changes").
    pub fn carried(&self, alloc: Global, schemas: NewSchema<'_>) -> Result<Tree, AllocError>
        requires { IsContent (shape schemas.old.now) self.now }
        ensures is { IfOk result (λ t. t ≡ carried (shape schemas.entry.old.now) (shape schemas.entry.new.now) self.now) }
        ensures carried { IfOk result (λ t. IsCarried (shape schemas.entry.old.now) (shape schemas.entry.new.now) self.now t) }
        ensures stand { IfOk result (λ t. LeavesStand (shape schemas.entry.old.now) (shape schemas.entry.new.now) self.now t) }
        ensures content { IfOk result (λ t. IsContent (shape schemas.entry.new.now) t) }
        ensures printed { IfOk result (λ t. print (shape schemas.entry.new.now) t ≡ print (shape schemas.entry.old.now) self.now) }
    {
        let Some(value) = self.to_value(alloc, schemas.old)? else {
            return Ok(Tree::empty(alloc));
        };
        match Tree::read(schemas.new, alloc, &value) {
            Ok(tree) => Ok(tree),
            Err(ReadFault::Memory) => Err(AllocError),
            Err(ReadFault::Shape(_, _)) => unreachable!(),
        }
    }
}
