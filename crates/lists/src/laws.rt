//! The law of a list's text; tokens and next pages stand in `token_laws`. The function does nothing; what it promises is
//! the law.

ghost use Rattle.std.specs.Prelude.{◌≡◌};
ghost use Rattle.serde_json.specs.Data.{Data, Items};
ghost use Rattle.serde_json.specs.Written.{compact_text};
ghost use Rattle.lists.specs.Body.{Collection, item_texts, joined_text, list_value};

/// Where the items' texts are compact JSON, the text of a list is the compact JSON of the list as a value: its
/// `apiVersion`, its items, its `kind` and its `metadata`.
pub fn lists_are_json()
    ensures { (of : Collection) (metadata : Data) (items : Items) → joined_text of metadata (item_texts items) ≡ compact_text (list_value of metadata items) }
{}
