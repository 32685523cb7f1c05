//! Laws: the client reads each line of a watch as what the server printed. Pages of lists stand in `page_laws`.

ghost use Rattle.std.specs.Prelude.{◌≡◌, ◌≤◌, ℕ, List, [], ◌∷◌, ◌++◌, IsUtf8, Ok, decimal, false};
ghost use Rattle.std.specs.List.{list_any};
ghost use Rattle.serde_json.specs.Data.{Data};
ghost use Rattle.serde_json.specs.Written.{compact_text};
ghost use Rattle.fieldpath.specs.Encodable.{IsEncodable};
ghost use Rattle.schema.specs.ObjectShape.{IsObjectShape};
ghost use Rattle.schema.specs.Shape.{Shape};
ghost use Rattle.objects.specs.State.{State};
ghost use Rattle.objects.specs.SystemMetadata.{Stamp};
ghost use Rattle.objects.specs.WellTyped.{IsWellTypedState};
ghost use Rattle.objects.specs.ObjectText.{Identity, object_value};
ghost use Rattle.objects.specs.ReadBack.{IsObjectText, max_version};
ghost use Rattle.history.specs.Seen.{SeenChange};
ghost use Rattle.indexer.specs.Objects.{Stored};
ghost use Rattle.decoder.specs.Lines as reads;
ghost use Rattle.decoder.specs.Lines.{line_in};
ghost use Rattle.decoder.specs.Members.{value_in};
ghost use Rattle.decoder.specs.Objects.{object_of};
ghost use Rattle.decoder.specs.Wanted.{Wanted, api_version_of};
ghost use Rattle.watchline.specs.declared.event.EventType.{EventType};
ghost use Rattle.watchline.specs.declared.event.EventType.TheVariants as event;
ghost use Rattle.watchline.specs.Lines.{bookmark_line, bookmark_value, error_line, expired_message, expired_value, line, text_shown, type_of};
ghost use Rattle.line_laws.specs.Shown.{HasPlace, IsShown, IsStored, is_feed, line_value, shown, taken, stamp_shown};

/// A line has one line feed, its last byte, whatever value stands in it.
pub fn lines_are_lines()
    ensures ends { (what : EventType) (text : List ℕ) → line what text ≡ shown what text ++ 10 ∷ [] }
    ensures one { (what : EventType) (d : Data) → IsEncodable d → list_any is_feed (shown what (compact_text d)) ≡ false }
{}

/// A line is JSON, and a client reads it as what it says: the object that the change's text says, put or deleted, at
/// the version that is shown; a bookmark's version; an error. An object nests no deeper than what a line shows may.
pub fn lines_are_read()
    ensures json { (what : EventType) (d : Data) → IsShown d → IsUtf8 (compact_text d) → value_in (shown what (compact_text d)) ≡ Ok (line_value what d) }
    ensures objects { (s : Shape) (of : Identity) (v : Stamp) (state : State) (text : List ℕ) → IsObjectShape s → IsObjectText s of v state text
        → IsShown (object_value s of v state) × (text ≡ compact_text (object_value s of v state)) }
    ensures changes { (wanted : Wanted) (s : Shape) (of : Identity) (v : Stamp) (state : State) (x : SeenChange) (o : Stored) → IsObjectShape s → IsObjectText s of v state x.object.body
        → x.object.revision ≤ max_version → IsUtf8 x.object.body → object_of wanted (object_value s of (stamp_shown x.kind v x.object.revision) state) ≡ Ok o
        → line_in wanted (shown (type_of x.kind) (text_shown x.kind x.object)) ≡ Ok (taken x.kind o) }
    ensures bookmarks { (wanted : Wanted) (r : ℕ) → r ≤ max_version → IsUtf8 (api_version_of wanted) → IsUtf8 wanted.kind → (wanted.kind ≡ [] → ⊥)
        → line_in wanted (shown event.Bookmark (compact_text (bookmark_value (api_version_of wanted) wanted.kind (decimal r)))) ≡ Ok (reads.bookmark r) }
    ensures errors { (wanted : Wanted) (r c : ℕ) → r ≤ max_version → c ≤ max_version
        → line_in wanted (shown event.Error (compact_text (expired_value (expired_message r c)))) ≡ Ok reads.error }
{}

/// An object's value is read, from a line as from a list, as that object: its key, its version, its labels and its
/// text, where a client asks for its type and its namespace.
pub fn objects_are_read()
    ensures { (wanted : Wanted) (s : Shape) (of : Identity) (v : Stamp) (state : State) → IsObjectShape s → IsWellTypedState s state → v.version ≤ max_version → HasPlace wanted of
        → (o : Stored) × (object_of wanted (object_value s of v state) ≡ Ok o) × IsStored s of v state o }
{}
