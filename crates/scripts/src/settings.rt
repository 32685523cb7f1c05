//! The settings of a run that a program's arguments ask for.
ghost use Rattle.std.specs.Prelude.{◌≡◌, ◌⊎◌, IfErr, IfOk, None, Some, option_map, string_bytes};
ghost use Rattle.api_types.specs.Served.{types_view};
ghost use Rattle.world.specs.Views.{settings_seen};
ghost use Rattle.programs.specs.declared.run_fault.RunFault.TheVariants.{Memory};
ghost use Rattle.scripts.specs.Asked.{settings_asked};
ghost use Rattle.scripts.specs.declared.program_fault.ProgramFault.TheVariants.{NoType, Run};

use crate::arguments::ClientOptions;
use crate::program_fault::ProgramFault;
use api_types::Types;
use std::alloc::{AllocError, Global};
use world::Settings;

fn copied(alloc: Global, text: Option<&str>) -> Result<Option<String>, AllocError>
    ensures { IfOk result (λ t. option_map string_bytes t ≡ option_map (λ s. s.now) text.entry) }
{
    match text {
        Some(text) => Ok(Some(String::from_str(alloc, text)?)),
        None => Ok(None),
    }
}

/// The settings that the arguments ask for.
pub(crate) fn settings_of(
    alloc: Global,
    types: &Types,
    options: &ClientOptions<'_>,
) -> Result<Settings, ProgramFault>
    ensures ok { IfOk result (λ s. settings_asked (types_view types.now) options.now ≡ Some (settings_seen s)) }
    ensures refused { IfErr result (λ f. (f ≡ Run Memory) ⊎ ((f ≡ NoType) × (settings_asked (types_view types.now) options.now ≡ None))) }
{
    let resource = options.resource;
    let Some(kind) = types.find(resource.group, resource.version, resource.plural) else {
        return Err(ProgramFault::NoType);
    };
    let namespace = String::from_str(alloc, "default")?;
    let name = String::from_str(alloc, "summary")?;
    Ok(Settings {
        kind,
        namespace: copied(alloc, options.namespace)?,
        selector: String::from_str(alloc, options.selector)?,
        page: options.page,
        label: String::from_str(alloc, options.label)?,
        summary: (namespace, name),
    })
}
