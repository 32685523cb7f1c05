//! What an event did: on which connections it wrote, which of them ended, and which request it answered. What it
//! changes stands in `hub`.

ghost use Rattle.std.specs.Prelude.{◌≡◌, ◌++◌, ◌∷◌, ◌<◌, [], Some, option_map, vec_capacity, vec_len};
ghost use Rattle.std.specs.List.{filter};
ghost use Rattle.httpedge.specs.Effects.{asked_in, changes_in, effect_on, no_change, request_in, says_something, tells, unasked};
ghost use Rattle.requests.specs.ReadBufferViews.{buffered, request_bytes};

use requests::{ReadBuffer, Request};
use std::slice;

/// What an event did to a connection.
#[derive(Clone, Copy, Debug)]
pub struct Change {
    /// How many bytes it wrote: the last so many of those that are out.
    pub bytes: usize,
    /// How many lines of a watch they are.
    pub lines: usize,
    /// The status of what was answered.
    pub status: Option<u16>,
    /// Whether the connection ended by it.
    pub has_ended: bool,
}

/// What an event did to a connection, and the request that it answered there.
#[derive(Debug, Drop)]
pub(crate) struct Done {
    pub(crate) change: Change,
    pub(crate) request: Option<Request>,
}

impl Done {
    /// A change by which no request was answered.
    pub(crate) fn unasked(change: Change) -> Done
        ensures { result ≡ unasked change }
    {
        Done {
            change,
            request: None,
        }
    }

    /// A change by which the request of these bytes was answered.
    pub(crate) fn asked(change: Change, prefix: ReadBuffer) -> Done
        ensures change { result.change ≡ change }
        ensures request { asked_in result ≡ Some (buffered prefix) }
    {
        Done {
            change,
            request: Some(Request::new(prefix.into_bytes())),
        }
    }
}

/// What an event did, by the ids of connections: one on which it wrote nothing, and which didn't end by it, isn't
/// named.
#[derive(Debug, Drop)]
pub enum Effect {
    Nothing,
    Connection((u64, Change)),
    /// The same, where it answered this request.
    Answer((u64, Change), Request),
    /// By ids that rise.
    Connections(Vec<(u64, Change)>),
}

impl Change {
    /// Nothing was written, and nothing ended.
    pub(crate) fn none() -> Change
        ensures { result ≡ no_change }
    {
        Change {
            bytes: 0,
            lines: 0,
            status: None,
            has_ended: false,
        }
    }

    /// Whether something was written, or the connection ended.
    fn says_something(&self) -> bool
        ensures { result ≡ says_something self.now }
    {
        self.bytes > 0 || self.has_ended
    }
}

impl Effect {
    /// What an event did to the connection of this id, where it is of no other.
    pub(crate) fn of(id: u64, done: Done) -> Effect
        ensures { result ≡ effect_on id done }
    {
        let Done { change, request } = done;
        match request {
            Some(request) => Effect::Answer((id, change), request),
            None => {
                if change.says_something() {
                    Effect::Connection((id, change))
                } else {
                    Effect::Nothing
                }
            }
        }
    }

    /// The changes, by the ids of their connections, which rise.
    pub fn changes(&self) -> &[(u64, Change)]
        ensures { result.now ≡ changes_in self.now }
    {
        match self {
            Effect::Nothing => &[],
            Effect::Connection(entry) => slice::from_ref(entry),
            Effect::Answer(entry, _) => slice::from_ref(entry),
            Effect::Connections(entries) => entries.as_slice(),
        }
    }

    /// The request that was answered, by a call or by its refusal. It came on the only connection of the changes.
    pub fn request(&self) -> Option<&Request>
        ensures { option_map (λ r. request_bytes r.now) result ≡ request_in self.now }
    {
        match self {
            Effect::Answer(_, request) => Some(request),
            Effect::Nothing | Effect::Connection(_) | Effect::Connections(_) => None,
        }
    }
}

/// Adds a change, if it says something, for which there is room.
pub(crate) fn push_change(changes: &mut Vec<(u64, Change)>, id: u64, change: Change)
    requires { vec_len changes.old < vec_capacity changes.old }
    ensures { changes.new.items ≡ changes.old.items ++ filter tells ((id, change) ∷ []) }
{
    if change.says_something() {
        changes.push_reserved((id, change));
    }
}
