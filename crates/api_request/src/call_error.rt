//! The error of a check, which refuses the call or is out of memory. A refusal itself stands in `call_refusal`.

ghost use Rattle.std.specs.Prelude.{◌≡◌, ℕ, IfOk, List, option_map, string_bytes};
ghost use Rattle.api_types.specs.Served as types;
ghost use Rattle.api_request.specs.declared.cause_type.CauseType.TheVariants.{FieldValueInvalid};
ghost use Rattle.api_request.specs.declared.reason.Reason.TheVariants.{Invalid};
ghost use Rattle.api_request.specs.Calls.{Plan};
ghost use Rattle.api_request.specs.Validated.{Validated, field_refusal, detailed};
ghost use Rattle.api_request.specs.Views.{FailsWith, Refuses, RefusesFor};

use crate::call_refusal::CallRefusal;
use crate::cause_type::CauseType;
use crate::reason::Reason;
use api_types::Served;
use std::alloc::{AllocError, Global};

/// Why a check doesn't pass.
#[derive(Debug, Drop)]
pub enum CallError {
    Refused(CallRefusal),
    Memory,
}

impl CallError {
    /// A refusal with this message, which was put together for it, unless there was no room in memory.
    pub fn reported(alloc: Global, reason: Reason, message: Result<String, AllocError>) -> CallError
        ensures { (text : List ℕ) → IfOk message (λ s. string_bytes s ≡ text) → RefusesFor result reason text }
    {
        match message {
            Ok(message) => CallError::Refused(CallRefusal::new(alloc, reason, message)),
            Err(_) => CallError::Memory,
        }
    }

    /// A refusal with a copy of this message.
    pub fn refused_for(alloc: Global, reason: Reason, message: &str) -> CallError
        ensures { RefusesFor result reason message.now }
    {
        CallError::reported(alloc, reason, String::from_str(alloc, message))
    }

    /// A refusal for what is wrong with the field at a path.
    pub fn at_field(
        alloc: Global,
        reason: Reason,
        cause: CauseType,
        path: &str,
        what: &str,
    ) -> CallError
        ensures { Refuses result (field_refusal reason cause path.now what.now) }
    {
        match CallRefusal::at_field(alloc, reason, cause, path, what) {
            Ok(refusal) => CallError::Refused(refusal),
            Err(_) => CallError::Memory,
        }
    }

    /// A refusal for a field that breaks a rule of the object.
    pub fn invalid_at(alloc: Global, path: &str, what: &str) -> CallError
        ensures { Refuses result (field_refusal Invalid FieldValueInvalid path.now what.now) }
    {
        CallError::at_field(
            alloc,
            Reason::Invalid,
            CauseType::FieldValueInvalid,
            path,
            what,
        )
    }

    /// The same of a call on this type, of the object of this name if it is known (`CallRefusal::in_detail`).
    pub fn in_detail(self, alloc: Global, served: &Served, name: Option<&str>) -> CallError
        ensures { (validated : Validated Plan) → FailsWith self validated → FailsWith result (detailed (types.served served.now) (option_map (λ s. s.now) name.entry) validated) }
    {
        match self {
            CallError::Refused(refusal) => match refusal.in_detail(alloc, served, name) {
                Ok(refusal) => CallError::Refused(refusal),
                Err(_) => CallError::Memory,
            },
            CallError::Memory => CallError::Memory,
        }
    }
}

impl From<AllocError> for CallError {
    ghost use Rattle.std.specs.Prelude.{◌≡◌};
    ghost use Rattle.api_request.specs.declared.call_error.CallError.TheVariants.{Memory};

    ghost from_gives = { λ _ e. e ≡ Memory };

    fn from(_: AllocError) -> CallError {
        CallError::Memory
    }
}
