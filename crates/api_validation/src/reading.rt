//! A body as an object's content, and the refusal of one that is none. The envelope is checked in `envelope`.

ghost use Rattle.std.specs.Prelude.{◌≡◌, IfOk};
ghost use Rattle.serde_json.specs.View.{view};
ghost use Rattle.api_types.specs.Served as types;
ghost use Rattle.typed.specs.Faults.{cause_text};
ghost use Rattle.typed.specs.Reading.{content_of};
ghost use Rattle.api_request.specs.Validated.{field_refusal};
ghost use Rattle.api_request.specs.Views.{Returns, call_refusal_of};
ghost use Rattle.api_validation.specs.Views.{rest_seen};
ghost use Rattle.api_validation.specs.Shapes.{cause_type, fault_reason, shape_validated};

use crate::envelope::left_out;
use api_request::{CallError, CallRefusal, CauseType, Reason};
use api_types::Served;
use serde_json::Value;
use std::alloc::{AllocError, Global};
use typed::{Cause, ReadFault, Tree};

fn fault_reason(cause: Cause) -> Reason
    ensures { result ≡ fault_reason cause }
{
    match cause {
        Cause::NotAnObject | Cause::UnknownField | Cause::WrongType => Reason::BadRequest,
        Cause::DuplicateItem | Cause::KeyFieldMissing => Reason::Invalid,
    }
}

fn cause_type(cause: Cause) -> CauseType
    ensures { result ≡ cause_type cause }
{
    match cause {
        Cause::NotAnObject | Cause::UnknownField | Cause::WrongType => CauseType::FieldValueInvalid,
        Cause::DuplicateItem => CauseType::FieldValueDuplicate,
        Cause::KeyFieldMissing => CauseType::FieldValueRequired,
    }
}

/// The refusal of the first fault in a shape.
fn shape_fault(alloc: Global, cause: Cause, path: &str) -> Result<CallRefusal, AllocError>
    ensures { IfOk result (λ d. call_refusal_of d ≡ field_refusal (fault_reason cause) (cause_type cause) path.now (cause_text cause)) }
{
    let what = cause.to_string(alloc)?;
    CallRefusal::at_field(
        alloc,
        fault_reason(cause),
        cause_type(cause),
        path,
        what.as_str(),
    )
}

/// The content of a body without its envelope, under the type's schema, or the first fault in its shape.
pub fn read_config(alloc: Global, served: &Served, body: &Value) -> Result<Tree, CallError>
    ensures { Returns (λ t. t) result (shape_validated (content_of (types.served served.now).shape (rest_seen (view body.now)))) }
{
    match Tree::read_without(&served.schema, alloc, body, left_out()) {
        Ok(tree) => Ok(tree),
        Err(ReadFault::Shape(cause, path)) => {
            Err(CallError::Refused(shape_fault(alloc, cause, path.as_str())?))
        }
        Err(ReadFault::Memory) => Err(CallError::Memory),
    }
}
