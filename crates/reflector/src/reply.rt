//! The reply to the last request. What its items change stands in `receiving`.

ghost use Rattle.std.specs.Prelude.{◌≡◌, is_some};
ghost use Rattle.reflector.specs.ReadingViews.{reader_of, relist_reason_of};

use crate::relist_reason::RelistReason;
use wireclient::ReplyReader;

#[derive(Drop)]
pub(crate) enum Reply {
    /// It is under way, and read so far.
    Open(ReplyReader),
    /// It has ended, or nothing was asked yet.
    Over,
    /// It was given up.
    GivenUp(RelistReason),
}

impl Reply {
    /// Whether it is under way.
    pub(crate) fn is_open(&self) -> bool
        ensures { result ≡ is_some (reader_of self.now) }
    {
        matches!(self, Reply::Open(_))
    }

    /// Why it was given up, if it was.
    pub(crate) fn relist_reason(&self) -> Option<RelistReason>
        ensures { result ≡ relist_reason_of self.now }
    {
        match self {
            Reply::GivenUp(relist_reason) => Some(*relist_reason),
            Reply::Open(_) | Reply::Over => None,
        }
    }
}
