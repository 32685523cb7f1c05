//! Laws of types that are read for a profile.
ghost use Rattle.api_types.specs.ProfileLaws.{AllFollow, AreRefusedAlike, DiscoveryIsAMark};

/// The types that a file declares follow the profile that it is read for. Discovered types are those of which no document
/// tells, but for that mark; and a file is refused for one fault, whatever the profile.
pub fn profiles_are_read()
    ensures follow { AllFollow }
    ensures mark { DiscoveryIsAMark }
    ensures refused { AreRefusedAlike }
{}
