//! The examples. What a row's words mean stands in `playing`.

use crate::playing::Play;
use std::test::Fail;
use test_rows::play_all;

/// Over a link that carries so many pieces.
const LINKS: &str = r#"cut_stream_resumes: the watch asks from what was reported
run - link=100: create w1; send; server; client; send; server; client; change w1 web; change w1 db; pump 3 10; client 520; cut; send; server => 4 2 [default/w1@2] {} | 11 3 [default/w1@3] {"web": 1}
carried - link=100: create w1; send; server; client; send; server; client; change w1 web; change w1 db; pump 3 10; client 520; cut; send; server => [demo.example/v1/widgets?limit=2][demo.example/v1/widgets?watch=true&resourceVersion=2&allowWatchBookmarks=true][demo.example/v1/widgets?watch=true&resourceVersion=3&allowWatchBookmarks=true]

request_byte_by_byte: over a link
run 1 link=5: send; server 1; server 68; server 1; server; client => 6 1 [] {} / HTTP/1.1 200 OK|$Content-Type: application/json|$Content-Length: 98|$Connection: close|$|${"apiVersion":"demo.example/v1","items":[],"kind":"WidgetList","metadata":{"resourceVersion":"1"}}
carried - link=5: send; server 1; server 68; server 1; server; client => [demo.example/v1/widgets?limit=2]

one_piece_more_than_the_link_carries
run - link=5: send; server 1; server 68; server 1; server 1; client 1 => -
run - link=5: send; server 1; server 68; server 1; server 1; client 1; client 1 => Link

pieces_alone_go_over_the_link: other peers' requests and the counts don't
run 3 link=2: create w1 web; send; server; client; reconcile => 4 2 [default/w1@2] {"web": 1} / HTTP/1.1 201 Created|$Content-Type: application/json|$Content-Length: 382|$Connection: close|$|${"apiVersion":"summary.example/v1","kind":"LabelSummary","metadata":{"managedFields":[{"apiVersion":"summary.example/v1","fieldsType":"FieldsV1","fieldsV1":{"f:spec":{"f:counts":{"f:web":{}},"f:label":{},"f:total":{}}},"manager":"label-summary","operation":"Apply"}],"name":"summary","namespace":"default","resourceVersion":"3"},"spec":{"counts":{"web":1},"label":"tier","total":1}}
run - link=2: create w1 web; send; server; client; reconcile; cut; send; server => Link"#;

/// Boxed indexes by namespace and by the value of a label.
const INDEXES: &str =
    r#"label_index_follows: after a list, an added object, a changed and a removed label, a deleted object
indexes - indexes=namespace,tier: create w1 web; create b/w3 db; create w2; send; server; client; send; server; client => [IndexShot { name: "namespace", keys: [("b", [ObjectKey { namespace: "b", name: "w3" }]), ("default", [ObjectKey { namespace: "default", name: "w1" }, ObjectKey { namespace: "default", name: "w2" }])] }, IndexShot { name: "tier", keys: [("db", [ObjectKey { namespace: "b", name: "w3" }]), ("web", [ObjectKey { namespace: "default", name: "w1" }])] }]
indexes - indexes=namespace,tier: create w1 web; create b/w3 db; create w2; send; server; client; send; server; client; send; server; client; create b/w4 web; pump 6 1; client => [IndexShot { name: "namespace", keys: [("b", [ObjectKey { namespace: "b", name: "w3" }, ObjectKey { namespace: "b", name: "w4" }]), ("default", [ObjectKey { namespace: "default", name: "w1" }, ObjectKey { namespace: "default", name: "w2" }])] }, IndexShot { name: "tier", keys: [("db", [ObjectKey { namespace: "b", name: "w3" }]), ("web", [ObjectKey { namespace: "b", name: "w4" }, ObjectKey { namespace: "default", name: "w1" }])] }]
indexes - indexes=namespace,tier: create w1 web; create b/w3 db; create w2; send; server; client; send; server; client; send; server; client; create b/w4 web; pump 6 1; client; change w1 db; pump 6 1; client => [IndexShot { name: "namespace", keys: [("b", [ObjectKey { namespace: "b", name: "w3" }, ObjectKey { namespace: "b", name: "w4" }]), ("default", [ObjectKey { namespace: "default", name: "w1" }, ObjectKey { namespace: "default", name: "w2" }])] }, IndexShot { name: "tier", keys: [("db", [ObjectKey { namespace: "b", name: "w3" }, ObjectKey { namespace: "default", name: "w1" }]), ("web", [ObjectKey { namespace: "b", name: "w4" }])] }]
indexes - indexes=namespace,tier: create w1 web; create b/w3 db; create w2; send; server; client; send; server; client; send; server; client; create b/w4 web; pump 6 1; client; change w1 db; pump 6 1; client; change b/w3; pump 6 1; client => [IndexShot { name: "namespace", keys: [("b", [ObjectKey { namespace: "b", name: "w3" }, ObjectKey { namespace: "b", name: "w4" }]), ("default", [ObjectKey { namespace: "default", name: "w1" }, ObjectKey { namespace: "default", name: "w2" }])] }, IndexShot { name: "tier", keys: [("db", [ObjectKey { namespace: "default", name: "w1" }]), ("web", [ObjectKey { namespace: "b", name: "w4" }])] }]
indexes - indexes=namespace,tier: create w1 web; create b/w3 db; create w2; send; server; client; send; server; client; send; server; client; create b/w4 web; pump 6 1; client; change w1 db; pump 6 1; client; change b/w3; pump 6 1; client; delete b/w4; pump 6 1; client => [IndexShot { name: "namespace", keys: [("b", [ObjectKey { namespace: "b", name: "w3" }]), ("default", [ObjectKey { namespace: "default", name: "w1" }, ObjectKey { namespace: "default", name: "w2" }])] }, IndexShot { name: "tier", keys: [("db", [ObjectKey { namespace: "default", name: "w1" }])] }]
run - indexes=namespace,tier: create w1 web; create b/w3 db; create w2; send; server; client; send; server; client; send; server; client; create b/w4 web; pump 6 1; client; change w1 db; pump 6 1; client; change b/w3; pump 6 1; client; delete b/w4; pump 6 1; client; cut; compact 8; restart; send; server; client; send; server; client => 9 4 [b/w3@3 default/w1@2 default/w2@4] {"db": 1, "web": 1} | 15 5 [b/w3@3 b/w4@5 default/w1@2 default/w2@4] {"db": 1, "web": 2} | 18 6 [b/w3@3 b/w4@5 default/w1@6 default/w2@4] {"db": 2, "web": 1} | 21 7 [b/w3@7 b/w4@5 default/w1@6 default/w2@4] {"db": 1, "web": 1} | 24 8 [b/w3@7 default/w1@6 default/w2@4] {"db": 1} | 33 8 [b/w3@7 default/w1@6 default/w2@4] {"db": 1}
indexes - indexes=namespace,tier: create w1 web; create b/w3 db; create w2; send; server; client; send; server; client; send; server; client; create b/w4 web; pump 6 1; client; change w1 db; pump 6 1; client; change b/w3; pump 6 1; client; delete b/w4; pump 6 1; client; cut; compact 8; restart; send; server; client; send; server; client => [IndexShot { name: "namespace", keys: [("b", [ObjectKey { namespace: "b", name: "w3" }]), ("default", [ObjectKey { namespace: "default", name: "w1" }, ObjectKey { namespace: "default", name: "w2" }])] }, IndexShot { name: "tier", keys: [("db", [ObjectKey { namespace: "default", name: "w1" }])] }]"#;

/// Settings that no program is given, and of several faults the least.
const SETTINGS: &str = r#"each_setting_is_refused
run - kind=2 => Settings(3)
run - indexes=tier,tier => Settings(4)

settings_are_taken
run - indexes=tier,namespace => -

least_of_two_faults
run - page=0 kind=2 => Settings(1)
run - page=0 indexes=tier,tier => Settings(1)
run - selector=, kind=2 => Settings(2)
run - selector=, indexes=tier,tier => Settings(2)
run - kind=2 indexes=tier,tier => Settings(3)
run - kind=2 namespace=A => Settings(3)
run - indexes=tier,tier namespace=A => Settings(4)"#;

/// Objects of counts, and labels, that no program is given. The apply of no counts has 151 bytes beside the label.
const COUNTS: &str = r#"a_name_that_no_object_has: 422, and no revision
run 3 summary=default/Summary: create w1 web; send; server; client; reconcile => 4 2 [default/w1@2] {"web": 1} / HTTP/1.1 422 Unprocessable Entity|$Content-Type: application/json|$Content-Length: 134|$Connection: close|$|${"apiVersion":"v1","code":422,"kind":"Status","message":"metadata.name: bad name","metadata":{},"reason":"Invalid","status":"Failure"}
moves 9 summary=default/Summary: create w1 web; send; server; client; reconcile => [] -> -

a_namespace_that_no_object_has
run 3 summary=Default/summary: create w1 web; send; server; client; reconcile => 4 2 [default/w1@2] {"web": 1} / HTTP/1.1 422 Unprocessable Entity|$Content-Type: application/json|$Content-Length: 144|$Connection: close|$|${"apiVersion":"v1","code":422,"kind":"Status","message":"metadata.namespace: bad namespace","metadata":{},"reason":"Invalid","status":"Failure"}
moves 9 summary=Default/summary: create w1 web; send; server; client; reconcile => [] -> -

the_longest_names: 63 letters, and 253
run - summary=<63 a>/<126 a.>a: create w1 web; send; server; client; reconcile => 4 2 [default/w1@2] {"web": 1}
length 3 summary=<63 a>/<126 a.>a: create w1 web; send; server; client; reconcile => 780

counts_that_fit_into_a_body: with the label's name they have 262,144 bytes
run - label=<261993 a>: send; server; client; reconcile => 3 1 [] {}
length 2 label=<261993 a>: send; server; client; reconcile => 262427

counts_that_are_too_long_for_a_body: by a byte; 413, and no revision
run 2 label=<261994 a>: send; server; client; reconcile => 3 1 [] {} / HTTP/1.1 413 Payload Too Large|$Content-Type: application/json|$Content-Length: 147|$Connection: close|$|${"apiVersion":"v1","code":413,"kind":"Status","message":"body over 262144 bytes","metadata":{},"reason":"RequestEntityTooLarge","status":"Failure"}
moves 9 label=<261994 a>: send; server; client; reconcile => [] -> -"#;

/// A request has 64 bytes beside its query.
const MOVES: &str = r#"a_list_comes: page by page; as many moves are made as may be
moves 9 page=2 => [ClientSend, ToServer(71), ToClient(188)] -> 3 1 [] {}
moves 9 page=2: create w1; create w2; create w3 => [ClientSend, ToServer(71), ToClient(450), ClientSend, ToServer(93), ToClient(306)] -> 9 4 [default/w1@2 default/w2@3 default/w3@4] {}
moves 6 page=2: create w1; create w2; create w3 => [ClientSend, ToServer(71), ToClient(450), ClientSend, ToServer(93), ToClient(306)] -> 9 4 [default/w1@2 default/w2@3 default/w3@4] {}
moves 5 page=2: create w1; create w2; create w3 => [ClientSend, ToServer(71), ToClient(450), ClientSend, ToServer(93)] -> -
moves 0 page=2: create w1; create w2; create w3 => [] -> -"#;

#[test]
fn examples(rt: HostRuntime) -> Result<(), Fail> {
    for examples in [LINKS, INDEXES, SETTINGS, COUNTS, MOVES] {
        play_all(rt.alloc(), &mut Play, examples)?;
    }
    Ok(())
}

/// A run with a summary, for which memory may be refused.
const SUMMING: &str = r#"summary_reconciles
anew 7,10,11 page=2: create w1 web; create w2 web; create w3 db; send; server; client; restart; reconcile; send; server; client; send; server; client; reconcile; send; server; client; delete w3; pump 8 10; client; reconcile; reconcile => [1, 2, 3, 9] 14 4 [default/w1@2 default/w2@3 default/w3@4] {"db": 1, "web": 2} | 21 6 [default/w1@2 default/w2@3] {"web": 2} / HTTP/1.1 201 Created|$Content-Type: application/json|$Content-Length: 399|$Connection: close|$|${"apiVersion":"summary.example/v1","kind":"LabelSummary","metadata":{"managedFields":[{"apiVersion":"summary.example/v1","fieldsType":"FieldsV1","fieldsV1":{"f:spec":{"f:counts":{"f:db":{},"f:web":{}},"f:label":{},"f:total":{}}},"manager":"label-summary","operation":"Apply"}],"name":"summary","namespace":"default","resourceVersion":"5"},"spec":{"counts":{"db":1,"web":2},"label":"tier","total":3}} / HTTP/1.1 200 OK|$Content-Type: application/json|$Content-Length: 382|$Connection: close|$|${"apiVersion":"summary.example/v1","kind":"LabelSummary","metadata":{"managedFields":[{"apiVersion":"summary.example/v1","fieldsType":"FieldsV1","fieldsV1":{"f:spec":{"f:counts":{"f:web":{}},"f:label":{},"f:total":{}}},"manager":"label-summary","operation":"Apply"}],"name":"summary","namespace":"default","resourceVersion":"7"},"spec":{"counts":{"web":2},"label":"tier","total":2}} / HTTP/1.1 200 OK|$Content-Type: application/json|$Content-Length: 382|$Connection: close|$|${"apiVersion":"summary.example/v1","kind":"LabelSummary","metadata":{"managedFields":[{"apiVersion":"summary.example/v1","fieldsType":"FieldsV1","fieldsV1":{"f:spec":{"f:counts":{"f:web":{}},"f:label":{},"f:total":{}}},"manager":"label-summary","operation":"Apply"}],"name":"summary","namespace":"default","resourceVersion":"7"},"spec":{"counts":{"web":2},"label":"tier","total":2}}"#;

/// Whichever allocation of a run is refused, it ends out of memory or shows all.
#[test]
fn a_run_that_is_refused_memory(rt: HostRuntime) -> Result<(), Fail> {
    play_all(rt.alloc(), &mut Play, SUMMING)
}
