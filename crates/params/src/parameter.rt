//! The names of all parameters; which of them a verb knows stands in `params`.

ghost use Rattle.std.specs.Prelude.{◌≡◌};
ghost use Rattle.params.specs.Parameters.{name_of};

/// A parameter, in byte order of the names.
#[derive(Clone, Copy, Debug, PartialEq, Eq)]
pub enum Parameter {
    AllowWatchBookmarks,
    Continue,
    DryRun,
    FieldManager,
    FieldSelector,
    FieldValidation,
    Force,
    LabelSelector,
    Limit,
    ResourceVersion,
    ResourceVersionMatch,
    SendInitialEvents,
    TimeoutSeconds,
    Watch,
}

impl Parameter {
    /// The parameter's name in a query.
    pub fn name(self) -> &'static str
        ensures { result.now ≡ name_of self }
    {
        match self {
            Parameter::AllowWatchBookmarks => "allowWatchBookmarks",
            Parameter::Continue => "continue",
            Parameter::DryRun => "dryRun",
            Parameter::FieldManager => "fieldManager",
            Parameter::FieldSelector => "fieldSelector",
            Parameter::FieldValidation => "fieldValidation",
            Parameter::Force => "force",
            Parameter::LabelSelector => "labelSelector",
            Parameter::Limit => "limit",
            Parameter::ResourceVersion => "resourceVersion",
            Parameter::ResourceVersionMatch => "resourceVersionMatch",
            Parameter::SendInitialEvents => "sendInitialEvents",
            Parameter::TimeoutSeconds => "timeoutSeconds",
            Parameter::Watch => "watch",
        }
    }
}
