//! Law: each list of events has exactly one run.

ghost use Rattle.std.specs.Prelude.{ℕ, List, map};
ghost use Rattle.world_laws.specs.Reading.{AreRead, bytes_in};
ghost use Rattle.world_laws.specs.Reports.{IsOnlyRun, Report};
ghost use Rattle.world_laws.specs.Tasks.{Task};
ghost use Rattle.world_laws.specs.World.{World, WorldEvent};

use crate::{each_happens, one_world};

/// Each list of events has exactly one run from each world: one end, with one list of reports. Its premise is on memory:
/// for each event in turn there are two pieces, all the bytes of a connection that the server reads in it and all that the
/// client has read then. That bytes have a reading is proved by reading them, and only bytes that lie in memory are read: so
/// of a connection with more bytes than memory can hold nothing is said. No event is left out for another reason.
pub fn each_runs(read: &[(Vec<u8>, Vec<u8>)])
    ensures { (task : Task) (i : ℕ) (w : World) (es : List WorldEvent) → AreRead task w es (map bytes_in read.now) → (v : World) × (reports : List Report) × IsOnlyRun task i w es v reports }
{
    one_world();
    for (server, client) in read {
        each_happens(server, client);
    }
}
