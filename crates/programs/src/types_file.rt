//! Types files: the types that a file declares, or the fault that names the file. Its text is read in the crate `api_types`.
ghost use Rattle.std.specs.Prelude.{◌≡◌, ℕ, List, IfOk, IfSome, None, Err, if◌then◌else◌};
ghost use Rattle.api_types.specs.Views.{FailsWith};
ghost use Rattle.api_types.specs.TypesFile.{declared_types};
ghost use Rattle.api_types.specs.declared.profile.Profile.{Profile};
ghost use Rattle.api_types.specs.declared.profile.Profile.TheVariants.{Plain, Discovered};
ghost use Rattle.serde_json.specs.Read.{read as read_json};
ghost use Rattle.serde_json.specs.View.{view};
ghost use Rattle.programs.specs.ReplayProgram.{AreNumbered, AreRefusals, IsNumberOf, IsNumbered, IsRefused, IsWhole, ReadsTypesFile};

use crate::run_fault::{RunFault, unread_path};
use crate::types_refusal::{RefusedTypes, TypesRefusal};
use api_types::{FaultPlace, LocatedFault, Profile, Types, TypesFault, all_places};
use serde_json::Value;
use std::alloc::{AllocError, Global};
use std::fs;
use std::rt::Files;

/// The number of a refusal; none where memory was refused.
fn refusal_number(fault: &TypesFault) -> Option<u8>
    ensures { IfSome result (IsNumberOf fault.now) }
{
    match fault {
        TypesFault::UnknownKeyword => Some(1),
        TypesFault::UnknownType => Some(2),
        TypesFault::Misfit => Some(3),
        TypesFault::TooDeep => Some(4),
        TypesFault::SameNames => Some(5),
        TypesFault::NotTheForm => Some(6),
        TypesFault::Memory => None,
    }
}

/// A refusal by its number.
fn numbered(fault: TypesFault, place: Option<FaultPlace>) -> Option<TypesRefusal>
    ensures { IfSome result (λ refusal. (refusal.fault ≡ fault) × (refusal.place ≡ place) × IsNumberOf refusal.fault refusal.number) }
{
    let number = refusal_number(&fault)?;
    Some(TypesRefusal {
        number,
        fault,
        place,
    })
}

fn located(reported: LocatedFault) -> Option<TypesRefusal>
    ensures { IfSome result (IsNumbered reported) }
{
    let LocatedFault { fault, place } = reported;
    numbered(fault, Some(place))
}

fn all_numbered(
    alloc: Global,
    all: Vec<LocatedFault>,
) -> Result<Option<Vec<TypesRefusal>>, AllocError>
    ensures { IfOk result (λ o. IfSome o (λ v. AreNumbered all.items v.items)) }
{
    let mut refusals = Vec::new(alloc);
    for reported in all {
        let Some(refusal) = located(reported) else {
            return Ok(None);
        };
        refusals.push(refusal)?;
    }
    Ok(Some(refusals))
}

/// The refusal of the file as a whole.
fn whole(alloc: Global, fault: TypesFault) -> Result<Option<Vec<TypesRefusal>>, AllocError>
    ensures { IfOk result (λ o. IfSome o (λ v. IsWhole fault v.items)) }
{
    let Some(refusal) = numbered(fault, None) else {
        return Ok(None);
    };
    let mut refusals = Vec::new(alloc);
    refusals.push(refusal)?;
    Ok(Some(refusals))
}

/// The refusals of a file: those of its types with their places, or else its first fault; none where memory was refused.
fn refusals_of(
    alloc: Global,
    file: &Value,
    fault: TypesFault,
) -> Result<Option<Vec<TypesRefusal>>, AllocError>
    ensures { FailsWith fault (declared_types Plain (view file.now)) → IfOk result (λ o. IfSome o (λ v. AreRefusals (view file.now) v.items)) }
{
    let all = all_places(alloc, file)?;
    if all.is_empty() {
        return whole(alloc, fault);
    }
    all_numbered(alloc, all)
}

fn refused(alloc: Global, path: &str, file: &Value, fault: TypesFault) -> RunFault
    ensures { FailsWith fault (declared_types Plain (view file.now)) → IsRefused path.now (view file.now) result }
{
    let Ok(Some(refusals)) = refusals_of(alloc, file, fault) else {
        return RunFault::Memory;
    };
    match String::from_str(alloc, path) {
        Ok(path) => RunFault::Types(RefusedTypes { path, refusals }),
        Err(_) => RunFault::Memory,
    }
}

fn not_json(alloc: Global, path: &str, error: serde_json::Error) -> RunFault
    ensures { (profile : Profile) (text : List ℕ) → read_json text ≡ None → ReadsTypesFile profile path.now text (Err result) }
{
    match String::from_str(alloc, path) {
        Ok(path) => RunFault::TypesText(path, error),
        Err(_) => RunFault::Memory,
    }
}

/// The types of a profile that the text of a types file declares; a fault names the file by its path.
pub fn types_in(alloc: Global, profile: Profile, path: &str, text: &str) -> Result<Types, RunFault>
    ensures { ReadsTypesFile profile path.now text.now result }
{
    let value = match Value::from_str(alloc, text) {
        Ok(value) => value,
        Err(error) if error.is_memory() => return Err(RunFault::Memory),
        Err(error) => return Err(not_json(alloc, path, error)),
    };
    match Types::read(alloc, profile, &value) {
        Ok(types) => Ok(types),
        Err(fault) => Err(refused(alloc, path, &value, fault)),
    }
}

/// The text of a types file.
pub fn types_text<R: Files + AllocGlobal>(rt: &R, path: &str) -> Result<String, RunFault> {
    match fs::read_to_string(rt, path) {
        Ok(text) => Ok(text),
        Err(error) => {
            let path = unread_path(rt.alloc(), path, &error)?;
            Err(RunFault::TypesFile(path, error))
        }
    }
}

/// The profile of types; where that is asked for, documents tell clients of them.
pub fn profile_asked(is_discovery: bool) -> Profile
    ensures { result ≡ (if is_discovery then Discovered else Plain) }
{
    match is_discovery {
        true => Profile::Discovered,
        false => Profile::Plain,
    }
}

/// Reads a types file, for a profile.
pub fn read_types<R: Files + AllocGlobal>(
    rt: &R,
    profile: Profile,
    path: &str,
) -> Result<Types, RunFault> {
    let text = types_text(rt, path)?;
    types_in(rt.alloc(), profile, path, text.as_str())
}
