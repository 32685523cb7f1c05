//! Law: the client reads a page of a list as what the server printed. Lines of watches stand in `lines`.

ghost use Rattle.std.specs.Prelude.{◌≡◌, ◌≤◌, ℕ, List, IsUtf8, Ok};
ghost use Rattle.objects.specs.ReadBack.{max_version};
ghost use Rattle.history.specs.History.{Objects};
ghost use Rattle.history.specs.Seen.{SeenPage};
ghost use Rattle.params.specs.Values.{Values};
ghost use Rattle.lists.specs.Body.{Collection, list_text};
ghost use Rattle.lists.specs.Lists.{list_of, page_of};
ghost use Rattle.lists.specs.Revision.{revision_of};
ghost use Rattle.decoder.specs.Wanted.{Wanted};
ghost use Rattle.line_laws.specs.Listed.{AreKept, AreWanted, IsReadAsPage, IsWanted};

/// A client that asks for a collection reads the text of its page (`pages`) as exactly the list's revision, the
/// `continue` token, where there is one, and for each object of the page, in order, the object that its text says:
/// under its key, at its version, with its text. So it reads each page of objects that stand (`leaf_value`), whatever
/// else stands beside them, and so each answer to a list (`answers`) as the page that was asked for.
pub fn pages_are_read()
    ensures pages { (wanted : Wanted) (of : Collection) (revision : ℕ) (page : SeenPage) → IsWanted wanted of → AreWanted wanted of page.found → revision ≤ max_version
        → IsUtf8 (list_text of revision page) → IsReadAsPage wanted (list_text of revision page) revision page }
    ensures leaf_value { (wanted : Wanted) (of : Collection) (values : Values) (revision : ℕ) (s : Objects) → IsWanted wanted of → AreKept of s → revision ≤ max_version
        → IsUtf8 (list_text of revision (page_of of values s)) → IsReadAsPage wanted (list_text of revision (page_of of values s)) revision (page_of of values s) }
    ensures answers { (wanted : Wanted) (of : Collection) (values : Values) (current compacted : ℕ) (at : ℕ → Objects) (text : List ℕ) → IsWanted wanted of
        → ((r : ℕ) → compacted ≤ r → r ≤ current → AreKept of (at r)) → compacted ≤ current → current ≤ max_version → list_of of values current compacted at ≡ Ok text → IsUtf8 text
        → (revision : ℕ) × (revision_of current compacted values ≡ Ok revision) × IsReadAsPage wanted text revision (page_of of values (at revision)) }
{}
