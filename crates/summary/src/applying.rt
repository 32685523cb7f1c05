//! The request that applies a summary as an object. The counts stand in `summary`.

ghost use Rattle.std.specs.Prelude.{◌≡◌, IfOk, string_bytes};
ghost use Rattle.std.specs.FinMap as fin;
ghost use Rattle.serde_json.specs.View.{members_view, view};
ghost use Rattle.serde_json.specs.Written.{compact_text};
ghost use Rattle.summary.specs.Apply.{count_members, spec_of, summary_of, target_of};
ghost use Rattle.summary.specs.Summary.{counts_in, summed};

use crate::summary::Summary;
use serde_json::{Map, Value, json};
use std::alloc::{AllocError, Global};
use std::collections::BTreeMap;
use wireclient::request_bytes;

/// A member for each value.
fn count_members(
    alloc: Global,
    counts: &BTreeMap<String, u64>,
) -> Result<Map<String, Value>, AllocError>
    ensures { IfOk result (λ m. members_view m.entries ≡ count_members (fin.entries (counts_in counts.now))) }
{
    let mut members = Map::new(alloc);
    for (value, count) in counts.iter() {
        serde_json::put(&mut members, alloc, value.as_str(), Value::from(*count))?;
    }
    Ok(members)
}

/// What is summed up, as the object's `spec`.
fn spec_of(alloc: Global, summary: &Summary) -> Result<Value, AllocError>
    ensures { IfOk result (λ v. view v ≡ spec_of (summed summary.now)) }
{
    let counts = count_members(alloc, &summary.counts)?;
    json!(in alloc; {
        "counts": counts,
        "label": summary.label.as_str(),
        "total": summary.total
    })
}

fn summary_of(
    alloc: Global,
    summary: &Summary,
    namespace: &str,
    name: &str,
) -> Result<Value, AllocError>
    ensures { IfOk result (λ v. view v ≡ summary_of (summed summary.now) namespace.now name.now) }
{
    let spec = spec_of(alloc, summary)?;
    json!(in alloc; {
        "apiVersion": "summary.example/v1",
        "kind": "LabelSummary",
        "metadata": {"name": name, "namespace": namespace},
        "spec": spec
    })
}

/// The object that is applied, as compact JSON.
fn body_of(
    alloc: Global,
    summary: &Summary,
    namespace: &str,
    name: &str,
) -> Result<String, AllocError>
    ensures { IfOk result (λ s. string_bytes s ≡ compact_text (summary_of (summed summary.now) namespace.now name.now)) }
{
    summary_of(alloc, summary, namespace, name)?.to_string(alloc)
}

fn target_of(alloc: Global, namespace: &str, name: &str) -> Result<String, AllocError>
    ensures { IfOk result (λ s. string_bytes s ≡ target_of namespace.now name.now) }
{
    format!(in alloc;
        "/apis/summary.example/v1/namespaces/{namespace}/labelsummaries/{name}?fieldManager=label-summary&force=true"
    )
}

impl Summary {
    ghost use Rattle.std.specs.Prelude.{◌≡◌, IfOk};
    ghost use Rattle.summary.specs.Apply.{apply_request};
    ghost use Rattle.summary.specs.Summary.{summed};

    /// The request that applies the summary as the object of this namespace and name (Kubernetes documentation,
    /// "Server-Side Apply").
    pub fn apply_call(&self, namespace: &str, name: &str) -> Result<Vec<u8>, AllocError>
        ensures { IfOk result (λ v. v.items ≡ apply_request (summed self.now) namespace.now name.now) }
    {
        let target = target_of(self.alloc, namespace, name)?;
        let body = body_of(self.alloc, self, namespace, name)?;
        let media = "application/apply-patch+yaml";
        request_bytes(
            self.alloc,
            "PATCH",
            target.as_str(),
            media,
            Some(body.as_bytes()),
        )
    }
}
