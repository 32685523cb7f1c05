//! Where a head ends: at its first empty line. Where a byte stands before that is named in `place`.

ghost use Rattle.std.specs.Prelude.{◌≡◌};
ghost use Rattle.wire.specs.Heads.{place_after};

use crate::place::ScanState;

/// The most bytes that a head may have, with the empty line at its end.
pub const MAX_HEAD: usize = 16_384;

/// Where a head stands after one byte more, or none where that byte ends it: the line feed of the first empty line.
/// CR and LF before the first line are ignored (RFC 9112, section 2.2).
pub fn place_after(place: ScanState, byte: u8) -> Option<ScanState>
    ensures { result ≡ place_after place byte }
{
    match (place, byte) {
        (ScanState::Leading, b'\r' | b'\n') => Some(ScanState::Leading),
        (ScanState::Inside, b'\n') => Some(ScanState::Fed),
        (ScanState::Fed | ScanState::FedCr, b'\n') => None,
        (ScanState::Fed, b'\r') => Some(ScanState::FedCr),
        (ScanState::Leading | ScanState::Inside | ScanState::Fed | ScanState::FedCr, _) => Some(
            ScanState::Inside,
        ),
    }
}
