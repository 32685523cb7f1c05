//! Law: what a client is answered that asks for a page of its task's list.

ghost use Rattle.std.specs.Prelude.{◌≡◌, ◌≤◌, ℕ, IsUtf8, List, None, Ok, Option, Some};
ghost use Rattle.api_types.specs.TypesFile.{ServedShape};
ghost use Rattle.history.specs.History.{History, Key, state_at};
ghost use Rattle.history.specs.Seen.{seen_page};
ghost use Rattle.lists.specs.Lists.{page_limit};
ghost use Rattle.lists.specs.Revision.{revision_of};
ghost use Rattle.lists.specs.TokenLaws.{token_after};
ghost use Rattle.params.specs.Values.{Token};
ghost use Rattle.api_request.specs.Calls.{Call};
ghost use Rattle.verbs.specs.Machine.{AreUnicode, IsMachine};
ghost use Rattle.verbs.specs.Step.{planned};
ghost use Rattle.world_laws.specs.ListCalls.{IsListCall, IsReadAsPageIfUtf8, page_values};
ghost use Rattle.world_laws.specs.Tasks.{IsTask, Task, selection, wanted_by};

/// A page that a task's client is answered is read as exactly the page that it asked for, of what the machine had at the
/// page's revision: the first one of what stands, each other of what its token's revision had behind the token's object,
/// as long as that revision isn't compacted. A body that isn't UTF-8 would be no JSON to a client; none is where the
/// machine's texts are Unicode (`texts`), as those of an API are.
pub fn pages_are_answered()
    ensures first { (types : List ServedShape) (task : Task) (machine : History) (call : Call) → IsTask types task → IsMachine types machine → IsListCall types task None call
        → IsReadAsPageIfUtf8 (wanted_by task) (planned types machine call).answer.body machine.current
        (seen_page (selection task) None (page_limit task.settings.page) (state_at machine.changes machine.current)) }
    ensures next { (types : List ServedShape) (task : Task) (machine : History) (revision : ℕ) (k : Key) (call : Call) → IsTask types task → IsMachine types machine
        → IsListCall types task (Some (token_after revision k)) call → k.kind ≡ task.settings.kind → machine.compacted ≤ revision → revision ≤ machine.current
        → IsReadAsPageIfUtf8 (wanted_by task) (planned types machine call).answer.body revision
        (seen_page (selection task) (Some k) (page_limit task.settings.page) (state_at machine.changes revision)) }
    ensures texts { (types : List ServedShape) (task : Task) (machine : History) (token : Option Token) (revision : ℕ) (call : Call) → IsTask types task → IsMachine types machine → IsListCall types task token call
        → revision_of machine.current machine.compacted (page_values task token) ≡ Ok revision → AreUnicode machine.changes → IsUtf8 (planned types machine call).answer.body }
{}
