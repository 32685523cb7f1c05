//! Summaries that count an informer's notices; the informer alone is tested in
//! `tests/mirrors` at the top.

use crate::informers::playing::expect_rows;
use std::test::Fail;

/// A restart forgets what was read, a deletion is told, and the apply says the counts.
#[test]
fn summary_reconciles(rt: HostRuntime) -> Result<(), Fail> {
    let rows = "summary_reconciles\n\
        ask => /widgets?limit=2&labelSelector=tier\n\
        page 4 4.default.w2 w1@2,web w2@3,web => (None, 0, 0)\n\
        restart => (None, 0, 0)\n\
        ask => /widgets?limit=2&labelSelector=tier\n\
        page 4 4.default.w2 w1@2,web w2@3,web => (None, 0, 0)\n\
        ask => /widgets?limit=2&continue=4.default.w2&labelSelector=tier\n\
        page 4 - w3@4,db => (Some(4), 3, 3) +w1 +w2 +w3\n\
        counts => {\"db\": 1, \"web\": 2}\n\
        apply => PATCH /apis/summary.example/v1/namespaces/default/labelsummaries/summary?fieldManager=label-summary&force=true HTTP/1.1|Host: localhost|Content-Type: application/apply-patch+yaml|Content-Length: 169||{\"apiVersion\":\"summary.example/v1\",\"kind\":\"LabelSummary\",\"metadata\":{\"name\":\"summary\",\"namespace\":\"default\"},\"spec\":{\"counts\":{\"db\":1,\"web\":2},\"label\":\"tier\",\"total\":3}}\n\
        ask => /widgets?watch=true&resourceVersion=4&allowWatchBookmarks=true&labelSelector=tier\n\
        watch => (Some(4), 3, 3)\n\
        line DELETED w3@6,db => (Some(6), 2, 2) -w3\n\
        counts => {\"web\": 2}\n\
        apply => PATCH /apis/summary.example/v1/namespaces/default/labelsummaries/summary?fieldManager=label-summary&force=true HTTP/1.1|Host: localhost|Content-Type: application/apply-patch+yaml|Content-Length: 162||{\"apiVersion\":\"summary.example/v1\",\"kind\":\"LabelSummary\",\"metadata\":{\"name\":\"summary\",\"namespace\":\"default\"},\"spec\":{\"counts\":{\"web\":2},\"label\":\"tier\",\"total\":2}}\n\
        line DELETED w9@7,web => (Some(7), 2, 2)\n\
        counts => {\"web\": 2}\n\
        line MODIFIED w2@8,db => (Some(8), 2, 2) *w2\n\
        counts => {\"db\": 1, \"web\": 1}\n\
        line MODIFIED w2@9 => (Some(9), 2, 2) *w2\n\
        counts => {\"web\": 1}\n\
        line MODIFIED w2@10,web => (Some(10), 2, 2) *w2\n\
        counts => {\"web\": 2}\n\
        restart => (None, 0, 0)\n\
        counts => {}\n\
        apply => PATCH /apis/summary.example/v1/namespaces/default/labelsummaries/summary?fieldManager=label-summary&force=true HTTP/1.1|Host: localhost|Content-Type: application/apply-patch+yaml|Content-Length: 155||{\"apiVersion\":\"summary.example/v1\",\"kind\":\"LabelSummary\",\"metadata\":{\"name\":\"summary\",\"namespace\":\"default\"},\"spec\":{\"counts\":{},\"label\":\"tier\",\"total\":0}}\n\
        line ADDED w5@9 => (None, 0, 0)\n\
        ask => /widgets?limit=2&labelSelector=tier\n";
    expect_rows(rt.alloc(), "tier", rows)
}

/// A list that replaces another tells each difference, and the counts follow.
#[test]
fn relist_is_counted(rt: HostRuntime) -> Result<(), Fail> {
    let rows = "relist_is_counted\n\
        ask => /widgets?limit=2\n\
        page 4 - w1@2,web w2@3,web w3@4,db => (Some(4), 3, 3) +w1 +w2 +w3\n\
        ask => /widgets?watch=true&resourceVersion=4&allowWatchBookmarks=true\n\
        status 410 Gone => (Some(4), 3, 3)\n\
        ask => /widgets?limit=2\n\
        page 9 - w2@3,web w3@8,web w4@9,db => (Some(9), 3, 3) -w1 *w3 +w4\n\
        counts => {\"db\": 1, \"web\": 2}\n";
    expect_rows(rt.alloc(), "", rows)
}
