//! Who writes: a name, an operation and a subresource. What managers own stands in `managers`.

ghost use Rattle.std.specs.Prelude.{◌≡◌, IfOk};
ghost use Rattle.objects.specs.Owners.{is_same, manager_by, manager_cmp, manager_of, operation_text, subresource_text};
ghost use Rattle.objects.specs.Managers.{manager_view};
ghost use Rattle.objects.specs.Parts.{operation_named, subresource_named};

use std::alloc::{AllocError, Global};
use std::cmp::Ordering;

/// How a manager wrote (ManagedFieldsEntry v1, `operation`).
#[derive(Clone, Copy, Debug, PartialEq, Eq)]
pub enum Operation {
    Apply,
    Update,
}

impl Operation {
    /// The operation that stands so in `managedFields`.
    pub(crate) fn named(text: &str) -> Option<Operation>
        ensures { result ≡ operation_named text.now }
    {
        match text {
            "Apply" => Some(Operation::Apply),
            "Update" => Some(Operation::Update),
            _ => None,
        }
    }

    /// The operation as it stands in `managedFields`.
    pub fn text(self) -> &'static str
        ensures { result.now ≡ operation_text self }
    {
        match self {
            Operation::Apply => "Apply",
            Operation::Update => "Update",
        }
    }
}

/// What a manager wrote by (ManagedFieldsEntry v1, `subresource`).
#[derive(Clone, Copy, Debug, PartialEq, Eq)]
pub enum Subresource {
    /// No subresource: the main resource.
    Main,
    Status,
}

impl Subresource {
    /// The subresource that stands so in `managedFields`, where the main resource doesn't stand.
    pub(crate) fn named(text: &str) -> Option<Subresource>
        ensures { result ≡ subresource_named text.now }
    {
        match text {
            "status" => Some(Subresource::Status),
            _ => None,
        }
    }

    /// The subresource as it stands in `managedFields`; empty for the main resource.
    pub fn text(self) -> &'static str
        ensures { result.now ≡ subresource_text self }
    {
        match self {
            Subresource::Main => "",
            Subresource::Status => "status",
        }
    }
}

/// Who writes: a name, an operation and a subresource (Server-Side Apply, "Managers").
#[derive(Debug, Drop)]
pub struct Manager {
    pub name: String,
    pub operation: Operation,
    pub subresource: Subresource,
}

impl Manager {
    /// The manager of this name that wrote by this operation, by the main resource.
    pub fn new(alloc: Global, name: &str, operation: Operation) -> Result<Manager, AllocError>
        ensures { IfOk result (λ m. manager_view m ≡ manager_of name.now operation) }
    {
        Manager::by(alloc, name, operation, Subresource::Main)
    }

    /// The manager of this name that wrote by this operation and subresource.
    pub fn by(
        alloc: Global,
        name: &str,
        operation: Operation,
        subresource: Subresource,
    ) -> Result<Manager, AllocError>
        ensures { IfOk result (λ m. manager_view m ≡ manager_by name.now operation subresource) }
    {
        Ok(Manager {
            name: String::from_str(alloc, name)?,
            operation,
            subresource,
        })
    }

    /// The order of managers: by name, then operation, then subresource.
    pub fn compare(&self, other: &Manager) -> Ordering
        ensures { result ≡ manager_cmp (manager_view self.now) (manager_view other.now) }
    {
        self.name
            .as_str()
            .cmp(other.name.as_str())
            .then(self.operation.text().cmp(other.operation.text()))
            .then(self.subresource.text().cmp(other.subresource.text()))
    }

    /// Whether name, operation and subresource are the same.
    pub fn is_same(&self, other: &Manager) -> bool
        ensures { result ≡ is_same (manager_view self.now) (manager_view other.now) }
    {
        self.compare(other).is_eq()
    }

    /// A copy of the manager.
    pub fn try_copy(&self) -> Result<Manager, AllocError>
        ensures { IfOk result (λ m. manager_view m ≡ manager_view self.now) }
    {
        Ok(Manager {
            name: self.name.clone()?,
            operation: self.operation,
            subresource: self.subresource,
        })
    }
}
