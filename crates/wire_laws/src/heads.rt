//! Law: where a head ends, in the words of RFC 9112.

ghost use Rattle.std.specs.Prelude.{◌≡◌, ℕ, List, None, Some, take};
ghost use Rattle.wire.specs.Heads.{head_end};
ghost use Rattle.wire_laws.specs.HeadEnds.{EndsHead, IsHeadEnd};

/// A head ends at its first empty line, behind the CRs and LFs that may lead it (RFC 9112, section 2.2); where it has no
/// end in these bytes, no prefix of them ends in an empty line.
pub fn heads_end()
    ensures one { (bytes : List ℕ) (n : ℕ) → head_end bytes ≡ Some n → IsHeadEnd bytes n }
    ensures none { (bytes : List ℕ) → head_end bytes ≡ None → (k : ℕ) → ¬ EndsHead (take k bytes) }
{}
