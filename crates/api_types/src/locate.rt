//! Finds where a types file breaks rules, in the order in which the file is read. The reading itself stands in `file` and
//! `read`.
ghost use Rattle.std.specs.Prelude.{◌≡◌, ◌≤◌, ◌+◌, ℕ, List, ◌∷◌, [], IfOk, IfSome, None, Some, codes, is_some, true, ◌++◌};
ghost use Rattle.std.specs.List.{All};
ghost use Rattle.serde_json.specs.Data.{Data, Members, object};
ghost use Rattle.serde_json.specs.Find.{as_object, get_member};
ghost use Rattle.json_values.specs.Members.{members_at};
ghost use Rattle.serde_json.specs.View.{items_view, members_view, view};
ghost use Rattle.api_types.specs.FaultPlaces.{AreBroken, AreBrokenIn, ArePlacesAmong, ArePlacesOf, AreReportedOf, Breaks, BreaksAt, BreaksKnown, EndsReading, IsBroken, IsLocated, IsRefusedBy, ReportsFile, ReportsType, ReportsTypes, behind};
ghost use Rattle.api_types.specs.Keywords.{has_only, keywords};
ghost use Rattle.api_types.specs.TypesFile.{listed, type_of, type_properties};
ghost use Rattle.api_types.specs.Views.{form_view};
ghost use Rattle.api_types.specs.declared.fault_place.LocatedFault.{LocatedFault};
ghost use Rattle.api_types.specs.declared.profile.Profile.TheVariants.{Plain};

use crate::fault::TypesFault;
use crate::fault_place::{FaultPlace, LocatedFault, Part, Step};
use crate::file::{group_of, is_envelope, listed, plural_of, read_type, version_of};
use crate::forms::{Form, known_form};
use crate::keywords::{KEYWORDS, has_only};
use crate::lawful::MAX_DEPTH;
use crate::profile::Profile;
use json_values::{copied, member, members_at, text_at};
use schema::is_in;
use serde_json::{Map, Value};
use std::alloc::{AllocError, Global};

/// A part of a schema, and the rule that it breaks.
#[derive(Debug, Drop)]
struct Broken {
    fault: TypesFault,
    part: Part,
}

/// The schema itself, with the word that is unknown.
fn here(
    alloc: Global,
    fault: TypesFault,
    word: Option<&str>,
    is_without_properties: bool,
) -> Result<Broken, AllocError>
    ensures { IfOk result (λ broken. (broken.fault ≡ fault) × (broken.part.steps.items ≡ [])) }
{
    let word = copied(alloc, word)?;
    Ok(Broken {
        fault,
        part: Part {
            steps: Vec::new(alloc),
            word,
            is_without_properties,
        },
    })
}

/// Each keyword of a schema that is unknown.
fn unknown_keywords(
    alloc: Global,
    depth: usize,
    schema: &Map<String, Value>,
) -> Result<Vec<Broken>, AllocError>
    ensures ends { IfOk result (λ v. All (IsBroken EndsReading depth (object (members_view schema.now.entries))) v.items) }
    ensures known { IfOk result (λ v. v.items ≡ [] → has_only keywords (members_view schema.now.entries) ≡ true) }
{
    let mut found = Vec::new(alloc);
    if has_only(schema, &KEYWORDS) {
        return Ok(found);
    }
    for (name, _) in schema.iter() {
        if !is_in(&KEYWORDS, name.as_str()) {
            let word = Some(name.as_str());
            found.push(here(alloc, TypesFault::UnknownKeyword, word, false)?)?;
        }
    }
    Ok(found)
}

/// The name of the type where it is unknown.
fn word_of<'a>(fault: TypesFault, schema: &'a Map<String, Value>) -> Option<&'a str> {
    match fault {
        TypesFault::UnknownType => text_at(schema, "type"),
        _ => None,
    }
}

fn is_granular(form: &Form) -> bool {
    matches!(form, Form::Object(false))
}

/// Whether the schema of a type may have this form: it is a granular object with properties.
fn is_of_type(form: &Form, schema: &Map<String, Value>) -> bool
    ensures { result ≡ is_some (type_properties (form_view form.now) (members_view schema.now.entries)) }
{
    match form {
        Form::Object(false) => members_at(schema, "properties").is_some(),
        _ => false,
    }
}

/// What the other keywords of a schema break.
fn form_fault(
    alloc: Global,
    depth: usize,
    schema: &Map<String, Value>,
) -> Result<Option<Broken>, AllocError>
    ensures { IfOk result (λ o. IfSome o (λ broken. (broken.part.steps.items ≡ []) × BreaksKnown broken.fault depth (object (members_view schema.now.entries)))) }
{
    let form = match known_form(alloc, depth, schema) {
        Ok(form) => form,
        Err(TypesFault::Memory) => return Err(AllocError),
        Err(own) => return Ok(Some(here(alloc, own, word_of(own, schema), false)?)),
    };
    if depth != 1 || is_of_type(&form, schema) {
        return Ok(None);
    }
    Ok(Some(here(alloc, TypesFault::Misfit, None, is_granular(&form))?))
}

/// What the schema's own keywords break.
fn own_faults(
    alloc: Global,
    depth: usize,
    schema: &Map<String, Value>,
) -> Result<Vec<Broken>, AllocError>
    ensures { IfOk result (λ v. AreBroken depth (object (members_view schema.now.entries)) v.items) }
{
    let mut found = unknown_keywords(alloc, depth, schema)?;
    let Some(broken) = form_fault(alloc, depth, schema)? else {
        return Ok(found);
    };
    found.push(broken)?;
    Ok(found)
}

fn joined(prefix: Vec<Broken>, rest: Vec<Broken>) -> Result<Vec<Broken>, AllocError>
    ensures order { IfOk result (λ v. v.items ≡ prefix.items ++ rest.items) }
    ensures broken { (depth : ℕ) (d : Data) → AreBroken depth d prefix.items → AreBroken depth d rest.items
        → IfOk result (λ v. AreBroken depth d v.items) }
{
    let mut all = prefix;
    let mut rest = rest;
    all.append(&mut rest)?;
    Ok(all)
}

/// A schema that is no object.
fn no_object(alloc: Global) -> Result<Vec<Broken>, AllocError>
    ensures { (depth : ℕ) (d : Data) → as_object d ≡ None → IfOk result (λ v. AreBroken depth d v.items) }
{
    let mut found = Vec::new(alloc);
    found.push(here(alloc, TypesFault::Misfit, None, false)?)?;
    Ok(found)
}

/// The same behind one step more.
fn one_behind(step: &Step, broken: Broken) -> Result<Broken, AllocError>
    ensures breaks { (depth : ℕ) (ms : Members) (d : Data) → behind step.now ms ≡ Some d → BreaksAt Breaks broken.fault (depth + 1) broken.part.steps.items d
        → IfOk result (λ more. BreaksAt Breaks more.fault depth more.part.steps.items (object ms)) }
    ensures ends { (depth : ℕ) (ms : Members) (d : Data) → behind step.now ms ≡ Some d → BreaksAt EndsReading broken.fault (depth + 1) broken.part.steps.items d
        → IfOk result (λ more. BreaksAt EndsReading more.fault depth more.part.steps.items (object ms)) }
{
    let mut broken = broken;
    let step = step.try_copy()?;
    broken.part.steps.insert(0, step)?;
    Ok(broken)
}

fn all_behind(alloc: Global, step: &Step, inner: Vec<Broken>) -> Result<Vec<Broken>, AllocError>
    ensures { (depth : ℕ) (ms : Members) (d : Data) → behind step.now ms ≡ Some d → AreBroken (depth + 1) d inner.items
        → IfOk result (λ v. AreBroken depth (object ms) v.items) }
{
    let mut all = Vec::new(alloc);
    for broken in inner {
        all.push(one_behind(step, broken)?)?;
    }
    Ok(all)
}

/// Of a schema that has this one behind the step.
#[cycle(find)]
fn find_behind(
    alloc: Global,
    value: Option<&Value>,
    step: Step,
    depth: usize,
) -> Result<Vec<Broken>, AllocError>
    requires { depth ≤ 16 }
    ensures { (ms : Members) → IfSome value.entry (λ v. behind step ms ≡ Some (view v.now))
        → IfOk result (λ v. AreBroken depth (object ms) v.items) }
{
    let Some(value) = value else {
        return Ok(Vec::new(alloc));
    };
    let inner = find(alloc, value, depth + 1)?;
    all_behind(alloc, &step, inner)
}

/// Of a schema that has these properties. At a type's own schema those that every object has are ignored.
#[cycle(find)]
fn find_in_properties(
    alloc: Global,
    properties: &Map<String, Value>,
    depth: usize,
) -> Result<Vec<Broken>, AllocError>
    requires { depth ≤ 16 }
    ensures { (ms : Members) → members_at (codes "properties") ms ≡ Some (members_view properties.now.entries)
        → IfOk result (λ v. AreBroken depth (object ms) v.items) }
{
    let mut found = Vec::new(alloc);
    for name in properties.keys() {
        if depth > 1 || !is_envelope(name.as_str()) {
            let value = member(properties, name.as_str());
            let step = Step::Property(name.clone()?);
            found = joined(found, find_behind(alloc, value, step, depth)?)?;
        }
    }
    Ok(found)
}

/// The schema at a keyword. What is no object is a fault of the keyword.
fn schema_at<'a>(schema: &'a Map<String, Value>, name: &str) -> Option<&'a Value>
    ensures { IfSome result (λ v. get_member name.now (members_view schema.now.entries) ≡ Some (view v.now)) }
{
    let value = member(schema, name)?;
    if value.is_object() { Some(value) } else { None }
}

#[cycle(find)]
fn find_in_object(
    alloc: Global,
    schema: &Map<String, Value>,
    depth: usize,
) -> Result<Vec<Broken>, AllocError>
    requires { depth ≤ 16 }
    ensures { IfOk result (λ v. AreBroken depth (object (members_view schema.now.entries)) v.items) }
{
    match members_at(schema, "properties") {
        Some(properties) => find_in_properties(alloc, properties, depth),
        None => Ok(Vec::new(alloc)),
    }
}

#[cycle(find)]
fn find_in_parts(
    alloc: Global,
    schema: &Map<String, Value>,
    depth: usize,
) -> Result<Vec<Broken>, AllocError>
    requires { depth ≤ 16 }
    ensures { IfOk result (λ v. AreBroken depth (object (members_view schema.now.entries)) v.items) }
{
    let fields = find_in_object(alloc, schema, depth)?;
    let values = schema_at(schema, "additionalProperties");
    let values = find_behind(alloc, values, Step::Values, depth)?;
    let items = find_behind(alloc, schema_at(schema, "items"), Step::Items, depth)?;
    joined(joined(fields, values)?, items)
}

/// The parts of a schema at a depth that break rules; the schema itself comes before its parts.
#[cycle(find)]
fn find(alloc: Global, value: &Value, depth: usize) -> Result<Vec<Broken>, AllocError>
    requires { depth ≤ 17 }
    ensures { IfOk result (λ v. AreBroken depth (view value.now) v.items) }
{
    let Value::Object(schema) = value else {
        return no_object(alloc);
    };
    let own = own_faults(alloc, depth, schema)?;
    if depth > MAX_DEPTH {
        return Ok(own);
    }
    joined(own, find_in_parts(alloc, schema, depth)?)
}

fn names_of(alloc: Global, value: &Value) -> Result<Option<String>, AllocError> {
    let Some(members) = value.as_object() else {
        return Ok(None);
    };
    let (Ok(group), Ok(version), Ok(plural)) = (
        group_of(members),
        version_of(members),
        plural_of(members),
    ) else {
        return Ok(None);
    };
    Ok(Some(format!(in alloc; "{group}/{version}/{plural}")?))
}

fn find_in_schema(alloc: Global, value: &Value) -> Result<Vec<Broken>, AllocError>
    ensures { IfOk result (λ v. AreBrokenIn (view value.now) v.items) }
{
    let Some(members) = value.as_object() else {
        return Ok(Vec::new(alloc));
    };
    match member(members, "schema") {
        Some(schema) => find(alloc, schema, 1),
        None => Ok(Vec::new(alloc)),
    }
}

/// A fault of a type, at a part of its schema or as a whole.
fn located(
    alloc: Global,
    number: usize,
    value: &Value,
    fault: TypesFault,
    part: Option<Part>,
) -> Result<LocatedFault, AllocError>
    ensures { IfOk result (λ reported. (reported.fault ≡ fault) × (reported.place.number ≡ number) × (reported.place.part ≡ part)) }
{
    let names = names_of(alloc, value)?;
    let place = FaultPlace {
        number,
        names,
        part,
    };
    Ok(LocatedFault { fault, place })
}

fn located_part(
    alloc: Global,
    number: usize,
    value: &Value,
    broken: Broken,
) -> Result<LocatedFault, AllocError>
    ensures { IfOk result (IsLocated number broken) }
{
    let Broken { fault, part } = broken;
    located(alloc, number, value, fault, Some(part))
}

fn all_located(
    alloc: Global,
    number: usize,
    value: &Value,
    inner: Vec<Broken>,
) -> Result<Vec<LocatedFault>, AllocError>
    ensures { AreBrokenIn (view value.now) inner.items → IfOk result (λ v. AreReportedOf number (view value.now) v.items) }
{
    let mut all = Vec::new(alloc);
    for broken in inner {
        all.push(located_part(alloc, number, value, broken)?)?;
    }
    Ok(all)
}

/// The fault that a type is refused for.
fn own_fault(alloc: Global, value: &Value) -> Result<Option<TypesFault>, AllocError>
    ensures { IfOk result (IsRefusedBy (type_of Plain (view value.now))) }
{
    let Err(own) = read_type(alloc, Profile::Plain, value) else {
        return Ok(None);
    };
    if own == TypesFault::Memory {
        return Err(AllocError);
    }
    Ok(Some(own))
}

/// Whether they begin by this fault.
fn begins_by(all: &[LocatedFault], fault: TypesFault) -> bool
    ensures { result ≡ true → (reported : LocatedFault) × (others : List LocatedFault) × (all.now ≡ reported ∷ others) × (reported.fault ≡ fault) }
{
    match all.first() {
        Some(reported) => reported.fault == fault,
        None => false,
    }
}

/// The places of a type that is refused. A fault of the type as a whole stands before those of its schema.
fn places_of_refused(
    alloc: Global,
    number: usize,
    value: &Value,
    own: TypesFault,
) -> Result<Vec<LocatedFault>, AllocError>
    ensures { IsRefusedBy (type_of Plain (view value.now)) (Some own) → IfOk result (λ v. ReportsType number (view value.now) v.items) }
{
    let broken = find_in_schema(alloc, value)?;
    let mut all = all_located(alloc, number, value, broken)?;
    if begins_by(&all, own) {
        return Ok(all);
    }
    all.insert(0, located(alloc, number, value, own, None)?)?;
    Ok(all)
}

fn places_of(alloc: Global, number: usize, value: &Value) -> Result<Vec<LocatedFault>, AllocError>
    ensures { IfOk result (λ v. ReportsType number (view value.now) v.items) }
{
    match own_fault(alloc, value)? {
        Some(own) => places_of_refused(alloc, number, value, own),
        None => Ok(Vec::new(alloc)),
    }
}

/// The places in these types.
fn places_among(alloc: Global, types: &[Value]) -> Result<Vec<LocatedFault>, AllocError>
    ensures reported { IfOk result (λ v. ReportsTypes 0 (items_view types.now) v.items) }
    ensures places { IfOk result (λ v. ArePlacesAmong (items_view types.now) v.items) }
{
    let mut all = Vec::new(alloc);
    for (number, value) in types.iter().enumerate() {
        let mut more = places_of(alloc, number, value)?;
        all.append(&mut more)?;
    }
    Ok(all)
}

/// The faults of a types file with their places, type by type. A type that is read has none; any other begins by the one
/// that it is refused for, a fault of its form with no part, and has behind it what else its schema breaks: the keywords of
/// a schema that are unknown, then what its others break, before its parts, these in byte order.
///
/// Exact is which types have entries, and which the first of each is; the first of all is what `Types::read` refuses the
/// file for. Of the first of each it is promised that reading ends at the schema there by this fault, of the others that
/// the rule is broken there, if need be beside a keyword that is unknown. None where the file's own form is at fault, or
/// its types are read and two have one name.
pub fn all_places(alloc: Global, file: &Value) -> Result<Vec<LocatedFault>, AllocError>
    ensures reported { IfOk result (λ v. ReportsFile (listed (view file.now)) v.items) }
    ensures places { IfOk result (λ v. ArePlacesOf (view file.now) v.items) }
{
    match listed(file) {
        Ok(types) => places_among(alloc, types),
        Err(_) => Ok(Vec::new(alloc)),
    }
}
