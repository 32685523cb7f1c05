//! What a line of a watch says: the event's type. A whole line stands in `lines`.

ghost use Rattle.std.specs.Prelude.{◌≡◌};
ghost use Rattle.watchline.specs.Lines.{type_text};

/// What a line of a watch says (WatchEvent v1 meta).
#[derive(Clone, Copy, Debug, PartialEq, Eq)]
pub enum EventType {
    Added,
    Modified,
    Deleted,
    Bookmark,
    Error,
}

impl EventType {
    /// The type as it stands in a line.
    pub(crate) fn text(self) -> &'static str
        ensures { result.now ≡ type_text self }
    {
        match self {
            EventType::Added => "ADDED",
            EventType::Modified => "MODIFIED",
            EventType::Deleted => "DELETED",
            EventType::Bookmark => "BOOKMARK",
            EventType::Error => "ERROR",
        }
    }
}
