//! The SELECT statements over the table's rows. What they give is read in `reading` and `first_kept`; `writing` adds and ends
//! rows, and `compaction` deletes some.

ghost use Rattle.std.specs.Prelude.{◌≡◌, [], ◌∷◌, ℕ, ◌^◌, ◌<◌, List, Option, pos, min, length, map, IfOk, option_map};
ghost use Rattle.history.specs.Read.{entry_of, key_of};
ghost use Rattle.revtable.specs.Asked.{as_change, deletions, in_from, in_one, low_of, under};
ghost use Rattle.history.specs.History.{last_revision, later, state_at, up_to};
ghost use Rattle.history.specs.Kept.{IsPruned, with_body};
ghost use Rattle.history.specs.Page.{changes_within};
ghost use Rattle.revtable.specs.Kept.{first_kept};
ghost use Rattle.revtable.specs.Rows.{shown};
ghost use Rattle.sqlite.specs.declared.types.Value.TheVariants.{Int};

use crate::fault::Fault;
use crate::keep::Keep;
use crate::paging::Wanted;
use crate::table::Table;
use history::{Entry, Key, LAST_REVISION};
use sqlite::{Row, params};

impl Table {
    /// The row that stood under a key at a revision, if one did. The index by key begins with the last one up to the
    /// revision, which is the one unless a deletion ended it.
    pub(crate) fn newest(&mut self, key: &Key, revision: u64) -> Result<Vec<Row>, Fault>
        requires fits { revision < 2 ^ 63 }
        ensures ok { IfOk result (λ rows. rows.items ≡ map (λ e. shown (as_change e)) (under (key_of key.now) (state_at self.old.changes revision))) }
        ensures same { self.new ≡ self.old }
    {
        self.ask(
            "SELECT first, kind, namespace, name, body FROM object WHERE kind = ?1 AND namespace = ?2 AND name = ?3 AND first <= ?4 AND (ended IS NULL OR ended > ?4) ORDER BY first DESC LIMIT 1",
            params![key.kind, &key.namespace, &key.name, revision as i64],
        )
    }

    /// The first changes that left an object of a type, and in a namespace if one is named, after one revision up to another.
    pub(crate) fn made_in(
        &mut self,
        kind: u32,
        namespace: Option<&str>,
        from: u64,
        to: u64,
        max: u64,
    ) -> Result<Vec<Row>, Fault>
        requires from { from < 2 ^ 63 }
        requires to { to < 2 ^ 63 }
        requires max { max < 2 ^ 63 }
        ensures ok { IfOk result (λ rows. rows.items ≡ map shown (changes_within kind (option_map (λ b. b.now) namespace.entry) max (with_body (up_to to (later from self.old.changes))))) }
        ensures same { self.new ≡ self.old }
        ensures sound { IsPruned self.old }
    {
        self.ask(
            "SELECT first, kind, namespace, name, body FROM object WHERE first > ?1 AND first <= ?2 AND kind = ?3 AND (?4 IS NULL OR namespace = ?4) ORDER BY first LIMIT ?5",
            params![from as i64, to as i64, kind, namespace, max as i64],
        )
    }

    /// The first deletions of the same, by the index over the revisions that ended a row.
    pub(crate) fn deleted_in(
        &mut self,
        kind: u32,
        namespace: Option<&str>,
        from: u64,
        to: u64,
        max: u64,
    ) -> Result<Vec<Row>, Fault>
        requires from { from < 2 ^ 63 }
        requires to { to < 2 ^ 63 }
        requires max { max < 2 ^ 63 }
        ensures ok { IfOk result (λ rows. rows.items ≡ map shown (changes_within kind (option_map (λ b. b.now) namespace.entry) max (deletions (up_to to (later from self.old.changes))))) }
        ensures same { self.new ≡ self.old }
    {
        self.ask(
            "SELECT ended, kind, namespace, name, NULL FROM object WHERE ended > ?1 AND ended <= ?2 AND gone = 1 AND kind = ?3 AND (?4 IS NULL OR namespace = ?4) ORDER BY ended LIMIT ?5",
            params![from as i64, to as i64, kind, namespace, max as i64],
        )
    }

    /// The first kept of the objects of a type in one namespace at a revision, from a text on that their names begin from. The
    /// index by key begins there and ends with the namespace, or where there are enough.
    pub(crate) fn kept_in<K: Keep>(
        &mut self,
        wanted: Wanted,
        namespace: &str,
        low: &str,
        keep: &K,
    ) -> Result<Vec<Entry>, Fault>
        requires fits { wanted.revision < 2 ^ 63 }
        ensures ok { (name : Option (List ℕ)) → low.now ≡ low_of name → IfOk result (λ v. map entry_of v.items
            ≡ first_kept (K.Keep.kept keep.now) wanted.max (in_one wanted.kind namespace.now name (state_at self.old.changes wanted.revision))) }
        ensures same { self.new ≡ self.old }
    {
        self.ask_kept(
            "SELECT first, kind, namespace, name, body FROM object WHERE kind = ?3 AND namespace = ?4 AND name >= ?5 AND first <= ?1 AND (ended IS NULL OR ended > ?1) ORDER BY namespace, name LIMIT ?2",
            params![
                wanted.revision as i64,
                LAST_REVISION as i64,
                wanted.kind,
                namespace,
                low
            ],
            wanted.max,
            keep,
        )
    }

    /// The first kept of the objects of a type in the namespaces from a text on at a revision.
    pub(crate) fn kept_from<K: Keep>(
        &mut self,
        wanted: Wanted,
        low: &str,
        keep: &K,
    ) -> Result<Vec<Entry>, Fault>
        requires fits { wanted.revision < 2 ^ 63 }
        ensures ok { IfOk result (λ v. map entry_of v.items
            ≡ first_kept (K.Keep.kept keep.now) wanted.max (in_from wanted.kind low.now (state_at self.old.changes wanted.revision))) }
        ensures same { self.new ≡ self.old }
    {
        self.ask_kept(
            "SELECT first, kind, namespace, name, body FROM object WHERE kind = ?3 AND namespace >= ?4 AND first <= ?1 AND (ended IS NULL OR ended > ?1) ORDER BY namespace, name LIMIT ?2",
            params![
                wanted.revision as i64,
                LAST_REVISION as i64,
                wanted.kind,
                low
            ],
            wanted.max,
            keep,
        )
    }

    /// How many rows there are.
    pub(crate) fn counted(&mut self) -> Result<Vec<Row>, Fault>
        ensures ok { IfOk result (λ rows. rows.items ≡ (Int (pos (min (length (with_body self.old.changes)) last_revision)) ∷ []) ∷ []) }
        ensures same { self.new ≡ self.old }
        ensures sound { IsPruned self.old }
    {
        self.ask("SELECT COUNT(*) FROM object", &[])
    }
}
