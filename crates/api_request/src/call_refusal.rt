//! A refusal of a call: its reason, its message, and what it is about. The reasons stand in `reason`, fields and objects in
//! `details`, its Status is made in `status`.

ghost use Rattle.std.specs.Prelude.{◌≡◌, false};
ghost use Rattle.serde_json.specs.View.{items_view};
ghost use Rattle.serde_json.specs.Written.{items_have_float};

use crate::cause_type::CauseType;
use crate::details::{About, FieldFault, causes_with};
use crate::reason::Reason;
use crate::status::{status_with_causes, status_with_details};
use api_types::Served;
use serde_json::Value;
use std::alloc::{AllocError, Global};

/// Why a call is refused.
#[derive(Debug, Drop)]
pub struct CallRefusal {
    pub reason: Reason,
    pub message: String,
    /// The field at fault, if it is one.
    pub at: Option<FieldFault>,
    /// The object, where the Status names it.
    pub about: Option<About>,
    /// The causes that the Status has: each path that another manager owns, in an ownership conflict; in detail, also the field
    /// that breaks a rule.
    pub causes: Vec<Value>,
    pub ghost textual: { items_have_float (items_view causes.items) ≡ false },
}

impl CallRefusal {
    ghost use Rattle.std.specs.Prelude.{◌≡◌, IfOk, option_map, string_bytes};
    ghost use Rattle.serde_json.specs.View.{view};
    ghost use Rattle.serde_json.specs.Written.{compact_text};
    ghost use Rattle.api_types.specs.Served as types;
    ghost use Rattle.api_request.specs.Validated.{call_refusal, field_refusal};
    ghost use Rattle.api_request.specs.Views.{call_refusal_of};
    ghost use Rattle.api_request.specs.Status.{call_refusal_value, in_detail};

    /// A refusal without causes, for no one field.
    pub fn new(alloc: Global, reason: Reason, message: String) -> CallRefusal
        ensures { call_refusal_of result ≡ call_refusal reason (string_bytes message) }
    {
        CallRefusal {
            reason,
            message,
            at: None,
            about: None,
            causes: Vec::new(alloc),
        }
    }

    /// A refusal for what is wrong with the field at a path.
    pub fn at_field(
        alloc: Global,
        reason: Reason,
        cause: CauseType,
        path: &str,
        what: &str,
    ) -> Result<CallRefusal, AllocError>
        ensures { IfOk result (λ d. call_refusal_of d ≡ field_refusal reason cause path.now what.now) }
    {
        let message = format!(in alloc; "{path}: {what}")?;
        let fault = FieldFault::new(alloc, path, cause, what)?;
        Ok(CallRefusal {
            reason,
            message,
            at: Some(fault),
            about: None,
            causes: Vec::new(alloc),
        })
    }

    /// A refusal of a call on this type, of the object of this name if it is known: of the profile `kubernetes` its Status names
    /// the object, and the field that breaks a rule.
    pub fn in_detail(
        self,
        alloc: Global,
        served: &Served,
        name: Option<&str>,
    ) -> Result<CallRefusal, AllocError>
        ensures { IfOk result (λ d. call_refusal_of d ≡ in_detail (types.served served.now) (option_map (λ s. s.now) name.entry) (call_refusal_of self)) }
    {
        if !served.profile.is_kubernetes() {
            return Ok(self);
        }
        let CallRefusal {
            reason,
            message,
            at,
            causes,
            ..
        } = self;
        let about = About::named(alloc, served, reason, name)?;
        let causes = causes_with(alloc, reason.is_invalid(), at.as_ref(), causes)?;
        Ok(CallRefusal {
            reason,
            message,
            at,
            about,
            causes,
        })
    }

    /// The Status object that tells the refusal (Kubernetes API conventions, "Response Status Kind").
    pub fn into_status(self, alloc: Global) -> Result<Value, AllocError>
        ensures { IfOk result (λ v. view v ≡ call_refusal_value (call_refusal_of self)) }
    {
        let CallRefusal {
            reason,
            message,
            about,
            causes,
            ..
        } = self;
        match about {
            Some(about) => {
                let details = about.into_details(alloc, causes)?;
                status_with_details(alloc, reason, message.as_str(), details)
            }
            None => status_with_causes(alloc, reason, message.as_str(), causes),
        }
    }

    /// Its text, as compact JSON.
    pub fn into_text(self, alloc: Global) -> Result<String, AllocError>
        ensures { IfOk result (λ s. string_bytes s ≡ compact_text (call_refusal_value (call_refusal_of self))) }
    {
        self.into_status(alloc)?.to_string(alloc)
    }
}
