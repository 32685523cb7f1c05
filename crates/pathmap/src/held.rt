//! What stands at one path: a value or a mark. The map of the paths stands in `pathmap`.

ghost use Rattle.std.specs.Prelude.{◌≡◌, IfOk};
ghost use Rattle.pathmap.specs.Beside.{same_leaf_value};
ghost use Rattle.pathmap.specs.Levels.{leaf_value};

use std::alloc::AllocError;

/// What stands at a path of an object.
#[derive(Debug, Drop)]
pub enum PathValue {
    Text(String),
    Whole(i64),
    Truth(bool),
    /// An atomic value, as its compact JSON text.
    Plain(String),
    /// An item of a set or of a map list.
    Mark,
}

impl PathValue {
    /// A copy with texts of its own.
    pub fn try_copy(&self) -> Result<PathValue, AllocError>
        ensures { IfOk result (λ h. leaf_value h ≡ leaf_value self.now) }
    {
        match self {
            PathValue::Text(text) => Ok(PathValue::Text(text.clone()?)),
            PathValue::Whole(number) => Ok(PathValue::Whole(*number)),
            PathValue::Truth(truth) => Ok(PathValue::Truth(*truth)),
            PathValue::Plain(text) => Ok(PathValue::Plain(text.clone()?)),
            PathValue::Mark => Ok(PathValue::Mark),
        }
    }

    /// Whether both are one value.
    pub fn same(&self, other: &PathValue) -> bool
        ensures { result ≡ same_leaf_value (leaf_value self.now) (leaf_value other.now) }
    {
        match (self, other) {
            (PathValue::Text(mine), PathValue::Text(theirs)) => mine.as_str() == theirs.as_str(),
            (PathValue::Whole(mine), PathValue::Whole(theirs)) => *mine == *theirs,
            (PathValue::Truth(mine), PathValue::Truth(theirs)) => *mine == *theirs,
            (PathValue::Plain(mine), PathValue::Plain(theirs)) => mine.as_str() == theirs.as_str(),
            (PathValue::Mark, PathValue::Mark) => true,
            _ => false,
        }
    }
}
