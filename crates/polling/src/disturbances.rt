//! After which revisions watches are disturbed, and how: by a seed alone.

ghost use Rattle.std.specs.Prelude.{◌≡◌};
ghost use Rattle.polling.specs.Disturbances.{after, kind_of, word_of};

use observing::Disturbance;
use rand_core::SeedableRng;
use rand_core::utils::NextWord;
use rand_xoshiro::SplitMix64;

/// What is added to a state of SplitMix64 at each step.
const STEP: u64 = 0x9e37_79b9_7f4a_7c15;

/// How many revisions there are for each one that is followed by a disturbance.
const SPACING: u64 = 4;

/// How many kinds there are.
const KINDS: u64 = 3;

/// The word of a revision: so far into SplitMix64's sequence from the seed.
fn word_of(seed: u64, revision: u64) -> u64
    ensures { result ≡ word_of seed revision }
{
    let state = seed.wrapping_add(revision.wrapping_mul(STEP));
    SplitMix64::seed_from_u64(state).next_word()
}

/// The seed, and which kinds are asked for.
#[derive(Clone, Copy, Debug)]
pub struct Disturbances {
    pub seed: u64,
    pub cuts: bool,
    pub holds: bool,
    pub expiries: bool,
}

impl Disturbances {
    /// The kind of a number below three, if it is asked for.
    fn kind_of(self, number: u64) -> Option<Disturbance>
        ensures { result ≡ kind_of self number }
    {
        match number {
            0 => self.cuts.then_some(Disturbance::Cut),
            1 => self.holds.then_some(Disturbance::Hold),
            _ => self.expiries.then_some(Disturbance::Expiry),
        }
    }

    /// What comes after a revision, and a number that chooses the watch.
    pub fn after(self, revision: u64) -> Option<(Disturbance, u64)>
        ensures { result ≡ after self revision }
    {
        let word = word_of(self.seed, revision);
        if word % SPACING != 0 {
            return None;
        }
        let chosen = word / SPACING;
        Some((self.kind_of(chosen % KINDS)?, chosen / KINDS))
    }
}
