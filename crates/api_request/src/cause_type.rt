//! What is wrong with a field, as causes name it. A field at fault stands in `details`.

ghost use Rattle.std.specs.Prelude.{◌≡◌};
ghost use Rattle.api_request.specs.Details.{cause_type_text};

/// The types of causes (Kubernetes API reference, "StatusCause", `reason`).
#[derive(Clone, Copy, Debug, PartialEq, Eq)]
pub enum CauseType {
    FieldValueRequired,
    FieldValueDuplicate,
    FieldValueForbidden,
    FieldValueInvalid,
}

impl CauseType {
    /// The type as it stands in a cause.
    pub fn text(self) -> &'static str
        ensures { result.now ≡ cause_type_text self }
    {
        match self {
            CauseType::FieldValueRequired => "FieldValueRequired",
            CauseType::FieldValueDuplicate => "FieldValueDuplicate",
            CauseType::FieldValueForbidden => "FieldValueForbidden",
            CauseType::FieldValueInvalid => "FieldValueInvalid",
        }
    }
}
