//! The counts themselves, and the calls that take notices. A single count is changed in `counting`.

ghost use Rattle.std.specs.Prelude.{◌≡◌};

use crate::counting::{add_one, take_one, value_of};
use crate::fault::CountFault;
use indexer::Object;
use reflector::Notice;
use std::alloc::{AllocError, Global};
use std::collections::BTreeMap;

/// How many objects have each value of one label, and how many have the label.
#[derive(Drop)]
pub struct Summary {
    pub(crate) label: String,
    pub(crate) counts: BTreeMap<String, u64>,
    pub(crate) total: u64,
    pub(crate) alloc: Global,
}

impl Summary {
    ghost use Rattle.std.specs.Prelude.{◌≡◌, ◌+◌, ◌<◌, ◌^◌, ℕ, List, IfErr, OnErr, OnOk, length, map, string_bytes, take};
    ghost use Rattle.std.specs.FinMap as fin;
    ghost use Rattle.indexer.specs.Objects.{stored_of};
    ghost use Rattle.reflector.specs.Client.{Objects};
    ghost use Rattle.reflector.specs.ReplayLaws.{OldSidesMatch, OldSideMatches, replayed, with_notice};
    ghost use Rattle.reflector.specs.Views.{notice_seen};
    ghost use Rattle.summary.specs.Counts.{summed_of};
    ghost use Rattle.summary.specs.Steps.{noted, noted_all, with_object, without_object};
    ghost use Rattle.summary.specs.Summary.{counts_in, summed};

    /// The summary of no objects, by this label.
    pub fn new(alloc: Global, label: String) -> Summary
        ensures { summed result ≡ summed_of (string_bytes label) fin.empty }
    {
        Summary {
            label,
            counts: BTreeMap::new(alloc),
            total: 0,
            alloc,
        }
    }

    /// Counts one object more. Out of memory, it changes nothing.
    fn add(&mut self, object: &Object) -> Result<(), AllocError>
        ensures ok { OnOk result (summed self.new ≡ with_object (summed self.old) (stored_of object.now)) }
        ensures err { OnErr result (summed self.new ≡ summed self.old) }
    {
        if let Some(value) = value_of(object, self.label.as_str()) {
            add_one(self.alloc, &mut self.counts, value)?;
            self.total = self.total.saturating_add(1);
        }
        Ok(())
    }

    /// Counts one object less.
    fn take_away(&mut self, object: &Object)
        ensures { summed self.new ≡ without_object (summed self.old) (stored_of object.now) }
    {
        if let Some(value) = value_of(object, self.label.as_str()) {
            take_one(&mut self.counts, value);
            self.total = self.total.saturating_sub(1);
        }
    }

    /// What a notice does to the counts alone, whatever they were before. `note` says what that is where they are those
    /// of some objects.
    fn notify(&mut self, notice: &Notice) -> Result<(), AllocError>
        ensures ok { OnOk result (summed self.new ≡ noted (summed self.old) (notice_seen notice.now)) }
        ensures err { OnErr result (summed self.new ≡ summed self.old) }
    {
        match notice {
            Notice::Added(new) => self.add(new),
            Notice::Updated(old, new) => {
                self.add(new)?;
                self.take_away(old);
                Ok(())
            }
            Notice::Deleted(old) => {
                self.take_away(old);
                Ok(())
            }
        }
    }

    /// What notices do to the counts alone, one after the other. `note_all` says what that is where they are those of
    /// some objects.
    fn notify_all(&mut self, notices: &[Notice]) -> Result<(), CountFault>
        ensures ok { OnOk result (summed self.new ≡ noted_all (summed self.old) (map notice_seen notices.now)) }
        ensures err { IfErr result (λ f. summed self.new ≡ noted_all (summed self.old) (map notice_seen (take f.counted notices.now))) }
        ensures fewer { IfErr result (λ f. f.counted < length notices.now) }
    {
        for counted in 0..notices.len() {
            match self.notify(&notices[counted]) {
                Ok(()) => {}
                Err(_) => return Err(CountFault { counted }),
            }
        }
        Ok(())
    }

    /// Counts what a notice tells: the summary of the objects before it becomes that of the objects after it.
    /// Out of memory, it changes nothing. It stands apart from `notify`, since only its clauses speak of objects.
    pub fn note(&mut self, notice: &Notice) -> Result<(), AllocError>
        ensures noted { (label : List ℕ) (o : Objects) → summed self.old ≡ summed_of label o → fin.len o < 2 ^ 63 → OldSideMatches o (notice_seen notice.now)
            → OnOk result (summed self.new ≡ summed_of label (with_notice o (notice_seen notice.now))) }
        ensures refused { OnErr result (summed self.new ≡ summed self.old) }
    {
        self.notify(notice)
    }

    /// Counts what notices tell, one after the other: the summary of the objects before them becomes that of the
    /// objects after them. Out of memory, it answers how many it has counted, the first ones. It stands apart from
    /// `notify_all` as `note` does from `notify`.
    pub fn note_all(&mut self, notices: &[Notice]) -> Result<(), CountFault>
        ensures noted { (label : List ℕ) (o : Objects) → summed self.old ≡ summed_of label o → fin.len o + length notices.now < 2 ^ 63 → OldSidesMatch o (map notice_seen notices.now)
            → OnOk result (summed self.new ≡ summed_of label (replayed o (map notice_seen notices.now))) }
        ensures some { (label : List ℕ) (o : Objects) → summed self.old ≡ summed_of label o → fin.len o + length notices.now < 2 ^ 63 → OldSidesMatch o (map notice_seen notices.now)
            → IfErr result (λ f. summed self.new ≡ summed_of label (replayed o (map notice_seen (take f.counted notices.now)))) }
        ensures fewer { IfErr result (λ f. f.counted < length notices.now) }
    {
        self.notify_all(notices)
    }

    /// How many objects have each value of the label; values that none has are not there.
    pub fn counts(&self) -> &BTreeMap<String, u64>
        ensures { counts_in result.now ≡ (summed self.now).counts }
    {
        &self.counts
    }
}
