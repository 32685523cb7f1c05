//! A notice: what happened to an object. Notices are kept in `notifying`; those of two lists are found in `merging`.

ghost use Rattle.std.specs.Prelude.{◌≡◌, ◌+◌, ◌++◌, ◌<◌, ◌≤◌, Some, None, map, option_map, vec_capacity, vec_len};
ghost use Rattle.indexer.specs.Objects.{shared_of};
ghost use Rattle.reflector.specs.Client.{notice_of};
ghost use Rattle.reflector.specs.Views.{notice_seen, notice_list};

use indexer::Object;
use std::rc::Rc;

/// What happened to an object. The objects are those that the cache has or had, shared with it.
#[derive(Debug, Drop)]
pub enum Notice {
    /// It is there now.
    Added(Rc<Object>),
    /// The second replaced the first; their texts differ.
    Updated(Rc<Object>, Rc<Object>),
    /// It is gone. This is the object as it was kept, not as the watch's line has it, so its revision is that of its last
    /// change, not of its deletion.
    Deleted(Rc<Object>),
}

/// The notice where this object replaces what was there; none where the text is the same.
pub(crate) fn put_notice(was: Option<Rc<Object>>, now: Rc<Object>) -> Option<Notice>
    ensures { notice_list result ≡ notice_of (option_map shared_of was) (Some (shared_of now)) }
{
    match was {
        None => Some(Notice::Added(now)),
        Some(old) => {
            if old.text == now.text {
                None
            } else {
                Some(Notice::Updated(old, now))
            }
        }
    }
}

/// The notice where what was there is removed; none where nothing was there.
pub(crate) fn removed_notice(was: Option<Rc<Object>>) -> Option<Notice>
    ensures { notice_list result ≡ notice_of (option_map shared_of was) None }
{
    match was {
        None => None,
        Some(old) => Some(Notice::Deleted(old)),
    }
}

/// The notice of one place: what stood there, and what stands there now.
pub(crate) fn notice_at(was: Option<Rc<Object>>, now: Option<Rc<Object>>) -> Option<Notice>
    ensures { notice_list result ≡ notice_of (option_map shared_of was) (option_map shared_of now) }
{
    match now {
        Some(now) => put_notice(was, now),
        None => removed_notice(was),
    }
}

/// Adds the notice, if there is one, for which there is room.
pub(crate) fn notify(notices: &mut Vec<Notice>, notice: Option<Notice>)
    requires { vec_len notices.old < vec_capacity notices.old }
    ensures emitted { map notice_seen notices.new.items ≡ map notice_seen notices.old.items ++ notice_list notice }
    ensures one { vec_len notices.new ≤ vec_len notices.old + 1 }
    ensures capacity { vec_capacity notices.new ≡ vec_capacity notices.old }
{
    if let Some(notice) = notice {
        notices.push_reserved(notice);
    }
}
