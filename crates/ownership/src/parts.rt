//! What a subresource writes of a content. What a write does with it stands in `applying` and `updating`.

ghost use Rattle.std.specs.Prelude.{◌≡◌, IfOk, codes, true};
ghost use Rattle.fieldpath.specs.Paths.{PathTexts};
ghost use Rattle.pathmap.specs.Parted.{is_in};
ghost use Rattle.ownership.specs.Sides.{beside_others, own_part, writes};

use objects::Subresource;
use std::alloc::{AllocError, Global};
use typed::{Part, Tree};

/// The part that a subresource writes where the status is apart, by the field `status`.
fn part_written(subresource: Subresource) -> Part
    ensures { (p : PathTexts) → is_in result (codes "status") p ≡ writes true subresource p }
{
    match subresource {
        Subresource::Main => Part::Others,
        Subresource::Status => Part::Field,
    }
}

/// What a subresource writes of a content.
pub(crate) fn own_part(
    alloc: Global,
    is_apart: bool,
    subresource: Subresource,
    content: Tree,
) -> Tree
    ensures { result ≡ own_part is_apart subresource content }
{
    match subresource {
        _ if is_apart => content.part(Subresource::Status.text(), part_written(subresource)),
        Subresource::Main => content,
        Subresource::Status => Tree::empty(alloc),
    }
}

/// What a subresource writes of a content, beside what it doesn't write of what stands.
pub(crate) fn beside_others(
    alloc: Global,
    is_apart: bool,
    subresource: Subresource,
    new: Tree,
    live: &Tree,
) -> Result<Tree, AllocError>
    ensures { IfOk result (λ t. t ≡ beside_others is_apart subresource new live.now) }
{
    let field = Subresource::Status.text();
    match subresource {
        _ if is_apart => new.part_beside(alloc, field, part_written(subresource), live),
        Subresource::Main => Ok(new),
        Subresource::Status => live.try_copy(alloc),
    }
}
