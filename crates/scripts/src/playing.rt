//! Plays the text of a script as a program's options ask. The programs stand in `program`.
ghost use Rattle.std.specs.Prelude.{◌≡◌, ◌≢◌, ℕ, List, Err, OnErr, OnOk, false};
ghost use Rattle.std.specs.Io.KnownBytes.{Appends};
ghost use Rattle.api_types.specs.Served.{types_view};
ghost use Rattle.scripts.specs.Asked.{Ends, PlaysAsked, PlaysPrefixAsked, settings_asked};
ghost use Rattle.scripts.specs.Script.{lines_of};

use crate::arguments::PlayerOptions;
use crate::program_fault::ProgramFault;
use crate::replaying::replay;
use crate::script::read_script;
use crate::settings::settings_of;
use api_types::Types;
use std::alloc::Global;
use std::io::Write;
use world::Link;

/// Plays a script as the options ask, over this link. A bad line is told before anything is run, and before a fault of
/// the settings; after a fault, a prefix of what would be printed is written.
pub fn play_script<L: Link, W: Write>(
    alloc: Global,
    types: Types,
    options: &PlayerOptions<'_>,
    script: &str,
    link: &mut L,
    writer: &mut W,
) -> Result<(), ProgramFault>
    ensures ok { OnOk result ((text : List ℕ) × PlaysAsked (types_view types) (settings_asked (types_view types) options.now.client) (lines_of script.now) text × Appends (W.contents writer.old) (W.contents writer.new) text) }
    ensures prefix { OnErr result ((text : List ℕ) × PlaysPrefixAsked (types_view types) (settings_asked (types_view types) options.now.client) (lines_of script.now) text × Appends (W.contents writer.old) (W.contents writer.new) text) }
    ensures ends { Ends (types_view types) (settings_asked (types_view types) options.now.client) (lines_of script.now) result }
    ensures link { L.may_fail ≡ false → result ≢ Err ProgramFault.Link }
{
    let events = read_script(alloc, script)?;
    let settings = settings_of(alloc, &types, &options.client)?;
    Ok(replay(alloc, types, settings, &events, link, writer)?)
}
