//! Laws of moments, uids and generated names. The functions do nothing; what each promises is the law.

ghost use Rattle.system_metadata.specs.GeneratedNameLaws.{DifferByNumber};
ghost use Rattle.system_metadata.specs.MomentLaws.{NeverFalls, IsOneText, IsShownSo};
ghost use Rattle.system_metadata.specs.UidLaws.{AreApart};

/// Of one epoch, a later tick has no earlier moment.
pub fn moments_never_fall()
    ensures { NeverFalls }
{}

/// A moment is written in one way, and as jiff shows it at UTC.
pub fn moments_have_one_text()
    ensures one { IsOneText }
    ensures shown { IsShownSo }
{}

/// Two revisions of one epoch never have one uid, nor has one revision of two epochs, nor two of two.
pub fn uids_differ()
    ensures { AreApart }
{}

/// The names of a prefix and of different numbers below `NAMES` differ.
pub fn generated_names_differ()
    ensures { DifferByNumber }
{}
