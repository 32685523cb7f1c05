//! What the Status of a refusal says of the object and the field that it is about (Kubernetes API reference,
//! "StatusDetails", "StatusCause"). A whole refusal stands in `call_refusal`.

ghost use Rattle.std.specs.Prelude.{◌≡◌, IfOk, OnOk, codes, false, option_map, string_bytes};
ghost use Rattle.serde_json.specs.Data.{object};
ghost use Rattle.serde_json.specs.View.{items_view, members_view, view};
ghost use Rattle.serde_json.specs.Written.{items_have_float};
ghost use Rattle.api_types.specs.Served as types;
ghost use Rattle.api_request.specs.Details.{about_members, about_of_type, cause_of_field, causes_with, details_of, put_causes_in, put_text};
ghost use Rattle.api_request.specs.Status.{PlainRefusalsStay};
ghost use Rattle.api_request.specs.Views.{about_of, field_fault_of};

use crate::cause_type::CauseType;
use crate::reason::Reason;
use api_types::Served;
use json_values::{copied, into_object, unless_empty};
use serde_json::{Map, Value, json};
use std::alloc::{AllocError, Global};

/// A field at fault: its path as messages show it, and what is wrong with it.
#[derive(Debug, Drop)]
pub struct FieldFault {
    pub path: String,
    pub cause: CauseType,
    pub what: String,
}

impl FieldFault {
    /// A fault at this path.
    pub(crate) fn new(
        alloc: Global,
        path: &str,
        cause: CauseType,
        what: &str,
    ) -> Result<FieldFault, AllocError>
        ensures { IfOk result (λ f. field_fault_of f ≡ record { path = path.now; cause = cause; what = what.now }) }
    {
        Ok(FieldFault {
            path: String::from_str(alloc, path)?,
            cause,
            what: String::from_str(alloc, what)?,
        })
    }

    /// As a cause.
    fn to_cause(&self, alloc: Global) -> Result<Value, AllocError>
        ensures { IfOk result (λ v. view v ≡ cause_of_field (field_fault_of self.now)) }
    {
        json!(in alloc; {
            "field": self.path.as_str(),
            "message": self.what.as_str(),
            "reason": self.cause.text()
        })
    }
}

/// The causes of a refusal: the field at fault, where it breaks a rule, and else those that the refusal has.
pub(crate) fn causes_with(
    alloc: Global,
    breaks_rule: bool,
    at: Option<&FieldFault>,
    causes: Vec<Value>,
) -> Result<Vec<Value>, AllocError>
    ensures causes { IfOk result (λ cs. items_view cs.items ≡ causes_with breaks_rule (option_map (λ f. field_fault_of f.now) at.entry) (items_view causes.items)) }
    ensures textual { items_have_float (items_view causes.items) ≡ false → IfOk result (λ cs. items_have_float (items_view cs.items) ≡ false) }
{
    let Some(fault) = at else {
        return Ok(causes);
    };
    if !breaks_rule {
        return Ok(causes);
    }
    let mut faults = Vec::new(alloc);
    faults.push(fault.to_cause(alloc)?)?;
    Ok(faults)
}

/// The object that a call is of, as a refusal names it.
#[derive(Debug, Drop)]
pub struct About {
    /// None where it is the core group, which has no name.
    pub group: Option<String>,
    pub kind: String,
    pub name: String,
}

impl About {
    /// The object of this name: one that breaks a rule by its kind, and else by the resource that the call asked for.
    fn of_type(
        alloc: Global,
        served: &Served,
        reason: Reason,
        name: &str,
    ) -> Result<About, AllocError>
        ensures { IfOk result (λ a. about_of a ≡ about_of_type (types.served served.now) reason name.now) }
    {
        let kind = if reason.is_invalid() {
            served.kind.as_str()
        } else {
            served.plural.as_str()
        };
        Ok(About {
            group: copied(alloc, unless_empty(served.group.as_str()))?,
            kind: String::from_str(alloc, kind)?,
            name: String::from_str(alloc, name)?,
        })
    }

    /// The object of this name, if it is known.
    pub(crate) fn named(
        alloc: Global,
        served: &Served,
        reason: Reason,
        name: Option<&str>,
    ) -> Result<Option<About>, AllocError>
        ensures { IfOk result (λ o. option_map about_of o ≡ option_map (about_of_type (types.served served.now) reason) (option_map (λ s. s.now) name.entry)) }
    {
        match name {
            Some(name) => Ok(Some(About::of_type(alloc, served, reason, name)?)),
            None => Ok(None),
        }
    }

    fn into_members(self, alloc: Global) -> Result<Map<String, Value>, AllocError>
        ensures { IfOk result (λ m. members_view m.entries ≡ about_members (about_of self)) }
    {
        let About { group, kind, name } = self;
        let named = json!(in alloc; {"kind": kind, "name": name})?;
        let Some(mut members) = into_object(named) else {
            unreachable!()
        };
        put_text(&mut members, alloc, "group", group)?;
        Ok(members)
    }

    /// The details of a Status: the object, and the causes, where there are some.
    pub(crate) fn into_details(self, alloc: Global, causes: Vec<Value>) -> Result<Value, AllocError>
        ensures { IfOk result (λ v. view v ≡ object (details_of (about_of self) (items_view causes.items))) }
    {
        let mut members = self.into_members(alloc)?;
        put_causes(&mut members, alloc, causes)?;
        Ok(Value::Object(members))
    }
}

/// Puts a text that may be missing.
fn put_text(
    members: &mut Map<String, Value>,
    alloc: Global,
    name: &str,
    text: Option<String>,
) -> Result<(), AllocError>
    ensures { OnOk result (members_view members.new.entries ≡ put_text name.now (option_map (λ s. string_bytes s) text) (members_view members.old.entries)) }
{
    match text {
        Some(text) => serde_json::put(members, alloc, name, Value::from(text)),
        None => Ok(()),
    }
}

/// Puts the causes, where there are some.
fn put_causes(
    members: &mut Map<String, Value>,
    alloc: Global,
    causes: Vec<Value>,
) -> Result<(), AllocError>
    ensures { OnOk result (members_view members.new.entries ≡ put_causes_in (items_view causes.items) (members_view members.old.entries)) }
{
    if causes.is_empty() {
        return Ok(());
    }
    serde_json::put(members, alloc, "causes", Value::Array(causes))
}

/// Of a type that doesn't follow the profile `kubernetes` a refusal in detail is the refusal itself.
pub fn plain_refusals_stay()
    ensures { PlainRefusalsStay }
{}
