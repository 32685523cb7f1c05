//! Moments: the seconds of events, and their texts (RFC 3339, section 5.6).

ghost use Rattle.std.specs.Prelude.{◌≡◌, IfOk, string_bytes};
ghost use Rattle.system_metadata.specs.Moments.{second_at, moment_text};

use jiff::Timestamp;
use jiff::tz::Offset;
use std::alloc::{AllocError, Global};

/// The last second that a moment can be, and an epoch: 9999-12-30T22:00:00Z.
pub const LAST_SECOND: u64 = 253_402_207_200;

/// The second of an event, by the epoch's and the milliseconds of the last tick before it.
pub fn second_at(epoch: u64, milliseconds: u64) -> u64
    ensures { result ≡ second_at epoch milliseconds }
{
    epoch.saturating_add(milliseconds / 1000).min(LAST_SECOND)
}

/// The moment of an event in UTC, as `2030-01-01T00:00:00Z`.
pub fn moment(alloc: Global, epoch: u64, milliseconds: u64) -> Result<String, AllocError>
    ensures { IfOk result (λ text. string_bytes text ≡ moment_text (second_at epoch milliseconds)) }
{
    let second = second_at(epoch, milliseconds);
    let Ok(timestamp) = Timestamp::from_second(second as i64) else {
        unreachable!()
    };
    let shown = Offset::UTC.to_datetime(timestamp);
    format!(in alloc; "{shown}Z")
}
