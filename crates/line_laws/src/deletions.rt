//! Law: the line of a deletion shows the object that the answer to the DELETE shows. Other lines stand in `lines`.

ghost use Rattle.std.specs.Prelude.{◌≡◌, ◌≤◌, ℕ, List};
ghost use Rattle.schema.specs.ObjectShape.{IsObjectShape};
ghost use Rattle.schema.specs.Shape.{Shape};
ghost use Rattle.objects.specs.State.{State};
ghost use Rattle.objects.specs.SystemMetadata.{Stamp, at_version};
ghost use Rattle.objects.specs.ObjectText.{Identity, object_text};
ghost use Rattle.objects.specs.ReadBack.{IsObjectText, max_version};
ghost use Rattle.watchline.specs.Versions.{text_at_version};

/// An object's text at another version is the text of the same object at that version, of which the system says the same
/// beside: so the object in the line of a
/// deletion is, byte for byte, the one that the answer to the DELETE shows.
pub fn deletions_show_the_object()
    ensures text { (s : Shape) (of : Identity) (v : Stamp) (r : ℕ) (state : State) (text : List ℕ) → IsObjectShape s → IsObjectText s of v state text → text_at_version r text ≡ object_text s of (at_version r v) state }
    ensures object { (s : Shape) (of : Identity) (v : Stamp) (r : ℕ) (state : State) (text : List ℕ) → IsObjectShape s → IsObjectText s of v state text → r ≤ max_version
        → IsObjectText s of (at_version r v) state (text_at_version r text) }
{}
