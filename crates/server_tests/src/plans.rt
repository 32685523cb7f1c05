//! What a call would change, as it is told before it is made. Calls that are made are in `tests/hub` at the top.

use crate::given::{WIDGET_TYPES, fresh_api};
use api_request::{APPLY_TYPE, Body, Call, Changes, Method, Plan};
use std::alloc::Global;
use std::mem;
use std::test::Fail;
use test_rows::{expect_text, in_words};
use verbs::Api;

const APPLY: &str =
    r#"{"apiVersion":"demo.example/v1","kind":"Widget","spec":{"image":"a","replicas":3}}"#;

/// The revision and the key of its change, and the text that this stores.
const PLANNED: &str =
    r#"(2, Key { kind: 0, namespace: "default", name: "w1" }, Some("{\"apiVersion\":\"demo.example/v1\",\"kind\":\"Widget\",\"metadata\":{\"managedFields\":[{\"apiVersion\":\"demo.example/v1\",\"fieldsType\":\"FieldsV1\",\"fieldsV1\":{\"f:spec\":{\"f:image\":{},\"f:replicas\":{}}},\"manager\":\"alice\",\"operation\":\"Apply\"}],\"name\":\"w1\",\"namespace\":\"default\",\"resourceVersion\":\"2\"},\"spec\":{\"image\":\"a\",\"replicas\":3}}"))"#;

/// What a plan changes, or the status of an answer that changes nothing.
fn plan_in_words(alloc: Global, plan: &Plan) -> Result<String, Fail> {
    match &plan.changes {
        Changes::None => in_words(alloc, plan.answer.status),
        Changes::Answered(change) => in_words(
            alloc,
            (change.revision(), change.key(), plan.change_body()),
        ),
        Changes::Each(each) => in_words(alloc, (each.after, &each.writes)),
    }
}

/// What a call of an object is planned to do.
fn planned(
    alloc: Global,
    api: &mut Api,
    method: Method,
    body: Option<Body>,
) -> Result<String, Fail> {
    let path = "/apis/demo.example/v1/namespaces/default/widgets/w1";
    let media = body.as_ref().map(|_| APPLY_TYPE.as_bytes());
    let target = api.admit(Some(method), path, media).map_err(|_| "refused")?;
    let query = Vec::from_slice(alloc, b"fieldManager=alice")?;
    let plan = api.plan(&Call {
        target,
        query,
        body,
        agent: None,
        ticked: 0,
    })?;
    plan_in_words(alloc, &plan)
}

fn expect_plans(alloc: Global, api: &mut Api) -> Result<(), Fail> {
    let body = Body::read(alloc, APPLY.as_bytes()).map_err(|_| "no JSON")?;
    expect_text(planned(alloc, api, Method::Patch, Some(body))?, PLANNED)?;
    expect_text(planned(alloc, api, Method::Get, None)?, "404")
}

/// The API is not dropped, and no other function holds one.
#[test]
fn planned_changes_are_in_words(rt: HostRuntime) -> Result<(), Fail> {
    let alloc = rt.alloc();
    let mut api = fresh_api(alloc, WIDGET_TYPES)?;
    let told = expect_plans(alloc, &mut api);
    mem::forget(api);
    told
}
