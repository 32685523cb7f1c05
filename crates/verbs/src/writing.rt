//! Writes the changes of a plan to the store, or those that other types make. What is stored is decided in `validating`, and in
//! `retyping`.

ghost use Rattle.std.specs.Prelude.{◌≡◌, ◌≢◌, ◌+◌, ◌≤◌, suc, true, Err, None, OnErr, OnOk, length, map};
ghost use Rattle.std.specs.FinMap as fin;
ghost use Rattle.history.specs.History.{last_revision};
ghost use Rattle.history.specs.Read.{write_of};
ghost use Rattle.history.specs.View.{written_in};
ghost use Rattle.history.specs.Whole.{AreThere};
ghost use Rattle.history.specs.Writes.{changes_by, written_all_in};
ghost use Rattle.verbs.specs.Machine.{ComeAfter};
ghost use Rattle.verbs.specs.Views.{objects_in};
ghost use Rattle.api_request.specs.Views.{change_of};
ghost use Rattle.api_request.specs.Stored.{Stores};

use crate::fault::Fault;
use api_request::{Change, Writes};
use history::Write;
use revstore::{Store, WriteFault};

/// Adds a change that comes next, whose text is this. On an error nothing is changed.
pub(crate) fn write_change(store: &mut Store, change: &Change, text: &str) -> Result<(), Fault>
    requires next { change.now.revision ≡ suc store.old.current }
    requires there { (change_of change.now).body ≡ None → fin.contains_key (objects_in store.old) (change_of change.now).key ≡ true }
    requires text { Stores text.now change.now }
    ensures ok { OnOk result (store.new ≡ written_in store.old (change_of change.now).key (change_of change.now).body) }
    ensures err { OnErr result (store.new ≡ store.old) }
    ensures readable { result ≢ Err Fault.Unreadable }
{
    let body = match &change.text {
        Some(_) => Some(text),
        None => None,
    };
    match store.write(&change.key, body) {
        Ok(_) => Ok(()),
        Err(WriteFault::Exhausted) => unreachable!(),
        Err(WriteFault::Failed(fault)) => Err(Fault::from(fault)),
    }
}

/// Adds these, each at the next revision: all of them, or on an error none.
pub(crate) fn write_all(store: &mut Store, writes: &[Write]) -> Result<(), Fault>
    requires fits { store.old.current + length (map write_of writes.now) ≤ last_revision }
    requires there { AreThere (objects_in store.old) (changes_by store.old.current (map write_of writes.now)) }
    ensures ok { OnOk result (store.new ≡ written_all_in store.old (map write_of writes.now)) }
    ensures err { OnErr result (store.new ≡ store.old) }
    ensures readable { result ≢ Err Fault.Unreadable }
{
    match store.write_all(writes) {
        Ok(_) => Ok(()),
        Err(WriteFault::Exhausted) => unreachable!(),
        Err(WriteFault::Failed(fault)) => Err(Fault::from(fault)),
    }
}

/// Makes the changes of a plan that come next, all of them, or on an error none.
pub(crate) fn write_each(store: &mut Store, each: &Writes) -> Result<(), Fault>
    requires { ComeAfter store.old (changes_by each.now.after (map write_of each.now.writes.items)) }
    ensures ok { OnOk result (store.new ≡ written_all_in store.old (map write_of each.now.writes.items)) }
    ensures err { OnErr result (store.new ≡ store.old) }
    ensures readable { result ≢ Err Fault.Unreadable }
{
    if each.writes.is_empty() {
        return Ok(());
    }
    write_all(store, &each.writes)
}
