//! Whether others follow a reply on its connection (RFC 9112, section 9.3). The bytes of a reply stand in `reply`.

ghost use Rattle.std.specs.Prelude.{◌≡◌};
ghost use Rattle.requests.specs.KeptReplies.{connection_field};

/// Whether a connection is kept after a reply.
#[derive(Clone, Copy, Debug, PartialEq, Eq)]
pub enum Persistence {
    /// More replies may follow.
    Kept,
    /// It is the last one, after which the connection is closed.
    Last,
}

impl Persistence {
    /// The field that tells the peer (RFC 9112, section 9.6), with the end of its line; none where the connection is
    /// kept.
    pub(crate) fn connection_field(self) -> &'static str
        ensures { result.now ≡ connection_field self }
    {
        match self {
            Persistence::Kept => "",
            Persistence::Last => "Connection: close\r\n",
        }
    }
}
