//! Calls that are refused memory: which connection dies by it, and that all else stands as before. `hub_rows` says what the
//! rows are, and plays them; the refusals come by `tools/failing_memory.py`, and without them each call is done.

/// Each call, and what may be seen after it where it was refused memory: a get on another connection answers as before, and
/// the same call on a third one has its whole answer.
pub const REFUSED_MEMORY: &str = r#"first_apply on widgets
marked open 1 => -
else open 1 => -
marked ask 1 PATCH namespaces/default/widgets/w1?fieldManager=alice {"apiVersion":"demo.example/v1","kind":"Widget","metadata":{"name":"w1"},"spec":{"image":"a","replicas":3}} => HTTP/1.1 201 Created|$Content-Type: application/json|$Content-Length: 317|$Connection: close|$|${"apiVersion":"demo.example/v1","kind":"Widget","metadata":{"managedFields":[{"apiVersion":"demo.example/v1","fieldsType":"FieldsV1","fieldsV1":{"f:spec":{"f:image":{},"f:replicas":{}}},"manager":"alice","operation":"Apply"}],"name":"w1","namespace":"default","resourceVersion":"2"},"spec":{"image":"a","replicas":3}}
else stand 1 => 0 false true
else ask 2 GET namespaces/default/widgets/w1 => 404
else out 2 => HTTP/1.1 404 Not Found|$Content-Type: application/json|$Content-Length: 149|$Connection: close|$|${"apiVersion":"v1","code":404,"kind":"Status","message":"widgets.demo.example \"w1\" not found","metadata":{},"reason":"NotFound","status":"Failure"}
else ask 3 PATCH namespaces/default/widgets/w1?fieldManager=alice {"apiVersion":"demo.example/v1","kind":"Widget","metadata":{"name":"w1"},"spec":{"image":"a","replicas":3}} => 201
else out 3 => HTTP/1.1 201 Created|$Content-Type: application/json|$Content-Length: 317|$Connection: close|$|${"apiVersion":"demo.example/v1","kind":"Widget","metadata":{"managedFields":[{"apiVersion":"demo.example/v1","fieldsType":"FieldsV1","fieldsV1":{"f:spec":{"f:image":{},"f:replicas":{}}},"manager":"alice","operation":"Apply"}],"name":"w1","namespace":"default","resourceVersion":"2"},"spec":{"image":"a","replicas":3}}
ask 4 GET namespaces/default/widgets/w1 => 200
out 4 => HTTP/1.1 200 OK|$Content-Type: application/json|$Content-Length: 317|$Connection: close|$|${"apiVersion":"demo.example/v1","kind":"Widget","metadata":{"managedFields":[{"apiVersion":"demo.example/v1","fieldsType":"FieldsV1","fieldsV1":{"f:spec":{"f:image":{},"f:replicas":{}}},"manager":"alice","operation":"Apply"}],"name":"w1","namespace":"default","resourceVersion":"2"},"spec":{"image":"a","replicas":3}}
ask 5 GET widgets?resourceVersion=3 => 504
out 5 => HTTP/1.1 504 Gateway Timeout|$Content-Type: application/json|$Content-Length: 152|$Connection: close|$|${"apiVersion":"v1","code":504,"kind":"Status","message":"Too large resource version: 3, current: 2","metadata":{},"reason":"Timeout","status":"Failure"}

the_dead_count_no_more on widgets: where one of 1,024 connections died of it, another opens
open 1 1024 => -
marked in 1024 GET /apis/demo.example/v1/widgets HTTP/1.1|$Host: x|$|$ => -
else stand 1024 => 0 false true
done out 1024 => HTTP/1.1 200 OK|$Content-Type: application/json|$Content-Length: 98|$Connection: close|$|${"apiVersion":"demo.example/v1","items":[],"kind":"WidgetList","metadata":{"resourceVersion":"1"}}
open 1025 => -
stand 1025 => 0 true false

watch_leaves_selector on widgets
open 1 => -
ask 2 PATCH namespaces/default/widgets/w1?fieldManager=alice {"apiVersion":"demo.example/v1","kind":"Widget","metadata":{"labels":{"tier":"web"}}} => 201
ask 1 GET namespaces/default/widgets?watch=true&resourceVersion=2&labelSelector=tier%3Dweb => HTTP/1.1 200 OK|$Content-Type: application/json|$Transfer-Encoding: chunked|$Connection: close|$|$
ask 3 PATCH namespaces/default/widgets/w1?fieldManager=alice {"apiVersion":"demo.example/v1","kind":"Widget","metadata":{"labels":{"tier":"db"}}} => 200
ask 4 PATCH namespaces/default/widgets/w1?fieldManager=alice {"apiVersion":"demo.example/v1","kind":"Widget","metadata":{"labels":{"tier":"web"}}} => 200
marked pump 1 10 => 150|${"type":"DELETED","object":{"apiVersion":"demo.example/v1","kind":"Widget","metadata":{"labels":{"tier":"web"},"managedFields":[{"apiVersion":"demo.example/v1","fieldsType":"FieldsV1","fieldsV1":{"f:metadata":{"f:labels":{"f:tier":{}}}},"manager":"alice","operation":"Apply"}],"name":"w1","namespace":"default","resourceVersion":"3"}}}$|$14e|${"type":"ADDED","object":{"apiVersion":"demo.example/v1","kind":"Widget","metadata":{"labels":{"tier":"web"},"managedFields":[{"apiVersion":"demo.example/v1","fieldsType":"FieldsV1","fieldsV1":{"f:metadata":{"f:labels":{"f:tier":{}}}},"manager":"alice","operation":"Apply"}],"name":"w1","namespace":"default","resourceVersion":"4"}}}$|$
else stand 1 => 0 false true
else ask 5 GET namespaces/default/widgets/w1 => 200
else out 5 => HTTP/1.1 200 OK|$Content-Type: application/json|$Content-Length: 307|$Connection: close|$|${"apiVersion":"demo.example/v1","kind":"Widget","metadata":{"labels":{"tier":"web"},"managedFields":[{"apiVersion":"demo.example/v1","fieldsType":"FieldsV1","fieldsV1":{"f:metadata":{"f:labels":{"f:tier":{}}}},"manager":"alice","operation":"Apply"}],"name":"w1","namespace":"default","resourceVersion":"4"}}
else ask 6 GET namespaces/default/widgets?watch=true&resourceVersion=2&labelSelector=tier%3Dweb => 200
else pump 6 10 => -
else out 6 => HTTP/1.1 200 OK|$Content-Type: application/json|$Transfer-Encoding: chunked|$Connection: close|$|$150|${"type":"DELETED","object":{"apiVersion":"demo.example/v1","kind":"Widget","metadata":{"labels":{"tier":"web"},"managedFields":[{"apiVersion":"demo.example/v1","fieldsType":"FieldsV1","fieldsV1":{"f:metadata":{"f:labels":{"f:tier":{}}}},"manager":"alice","operation":"Apply"}],"name":"w1","namespace":"default","resourceVersion":"3"}}}$|$14e|${"type":"ADDED","object":{"apiVersion":"demo.example/v1","kind":"Widget","metadata":{"labels":{"tier":"web"},"managedFields":[{"apiVersion":"demo.example/v1","fieldsType":"FieldsV1","fieldsV1":{"f:metadata":{"f:labels":{"f:tier":{}}}},"manager":"alice","operation":"Apply"}],"name":"w1","namespace":"default","resourceVersion":"4"}}}$|$
ask 7 GET namespaces/default/widgets?resourceVersion=5 => 504
out 7 => HTTP/1.1 504 Gateway Timeout|$Content-Type: application/json|$Content-Length: 152|$Connection: close|$|${"apiVersion":"v1","code":504,"kind":"Status","message":"Too large resource version: 5, current: 4","metadata":{},"reason":"Timeout","status":"Failure"}

what_is_out_stays on widgets: the head of a watch that dies of it is still to be taken
ask 1 POST namespaces/default/widgets {"apiVersion":"demo.example/v1","kind":"Widget","metadata":{"name":"w1"}} => HTTP/1.1 201 Created|$Content-Type: application/json|$Content-Length: 117|$Connection: close|$|${"apiVersion":"demo.example/v1","kind":"Widget","metadata":{"name":"w1","namespace":"default","resourceVersion":"2"}}
ask 2 GET namespaces/default/widgets?watch=true => 200
marked pump 2 1 => -
else out 2 => HTTP/1.1 200 OK|$Content-Type: application/json|$Transfer-Encoding: chunked|$Connection: close|$|$
else stand 2 => 0 false true
done out 2 => HTTP/1.1 200 OK|$Content-Type: application/json|$Transfer-Encoding: chunked|$Connection: close|$|$90|${"type":"ADDED","object":{"apiVersion":"demo.example/v1","kind":"Widget","metadata":{"name":"w1","namespace":"default","resourceVersion":"2"}}}$|$

bookmark_after_unseen_changes on widgets
open 1 => -
ask 2 POST namespaces/default/widgets {"apiVersion":"demo.example/v1","kind":"Widget","metadata":{"name":"w1"}} => 201
ask 1 GET namespaces/default/widgets?watch=true&resourceVersion=2&allowWatchBookmarks=true => HTTP/1.1 200 OK|$Content-Type: application/json|$Transfer-Encoding: chunked|$Connection: close|$|$
ask 3 POST namespaces/other/widgets {"apiVersion":"demo.example/v1","kind":"Widget","metadata":{"name":"a"}} => 201
ask 4 POST namespaces/other/widgets {"apiVersion":"demo.example/v1","kind":"Widget","metadata":{"name":"b"}} => 201
ask 5 POST namespaces/other/widgets {"apiVersion":"demo.example/v1","kind":"Widget","metadata":{"name":"c"}} => 201
pump 1 10 => -
marked tick 0 => 71|${"type":"BOOKMARK","object":{"apiVersion":"demo.example/v1","kind":"Widget","metadata":{"resourceVersion":"5"}}}$|$
else stand 1 => 0 false true
else ask 6 GET widgets => 200
else out 6 => HTTP/1.1 200 OK|$Content-Type: application/json|$Content-Length: 560|$Connection: close|$|${"apiVersion":"demo.example/v1","items":[{"apiVersion":"demo.example/v1","kind":"Widget","metadata":{"name":"w1","namespace":"default","resourceVersion":"2"}},{"apiVersion":"demo.example/v1","kind":"Widget","metadata":{"name":"a","namespace":"other","resourceVersion":"3"}},{"apiVersion":"demo.example/v1","kind":"Widget","metadata":{"name":"b","namespace":"other","resourceVersion":"4"}},{"apiVersion":"demo.example/v1","kind":"Widget","metadata":{"name":"c","namespace":"other","resourceVersion":"5"}}],"kind":"WidgetList","metadata":{"resourceVersion":"5"}}
else ask 7 GET namespaces/default/widgets?watch=true&resourceVersion=2&allowWatchBookmarks=true => 200
else pump 7 10 => -
else tick 0 => -
else out 7 => HTTP/1.1 200 OK|$Content-Type: application/json|$Transfer-Encoding: chunked|$Connection: close|$|$71|${"type":"BOOKMARK","object":{"apiVersion":"demo.example/v1","kind":"Widget","metadata":{"resourceVersion":"5"}}}$|$
tick 0 => -

a_compaction on widgets
ask 1 POST namespaces/default/widgets {"apiVersion":"demo.example/v1","kind":"Widget","metadata":{"name":"w1"}} => HTTP/1.1 201 Created|$Content-Type: application/json|$Content-Length: 117|$Connection: close|$|${"apiVersion":"demo.example/v1","kind":"Widget","metadata":{"name":"w1","namespace":"default","resourceVersion":"2"}}
ask 2 POST namespaces/default/widgets {"apiVersion":"demo.example/v1","kind":"Widget","metadata":{"name":"w2"}} => 201
ask 3 DELETE namespaces/default/widgets/w1 => 200
marked compact 4 => -
else ask 4 GET namespaces/default/widgets?resourceVersion=2&resourceVersionMatch=Exact => 200
else out 4 => HTTP/1.1 200 OK|$Content-Type: application/json|$Content-Length: 215|$Connection: close|$|${"apiVersion":"demo.example/v1","items":[{"apiVersion":"demo.example/v1","kind":"Widget","metadata":{"name":"w1","namespace":"default","resourceVersion":"2"}}],"kind":"WidgetList","metadata":{"resourceVersion":"2"}}
else compact 4 => -
ask 5 GET namespaces/default/widgets?resourceVersion=2&resourceVersionMatch=Exact => 410
out 5 => HTTP/1.1 410 Gone|$Content-Type: application/json|$Content-Length: 142|$Connection: close|$|${"apiVersion":"v1","code":410,"kind":"Status","message":"too old resource version: 2 (4)","metadata":{},"reason":"Expired","status":"Failure"}
ask 6 GET namespaces/default/widgets => 200
out 6 => HTTP/1.1 200 OK|$Content-Type: application/json|$Content-Length: 215|$Connection: close|$|${"apiVersion":"demo.example/v1","items":[{"apiVersion":"demo.example/v1","kind":"Widget","metadata":{"name":"w2","namespace":"default","resourceVersion":"3"}}],"kind":"WidgetList","metadata":{"resourceVersion":"4"}}

a_deletion on widgets
ask 2 POST namespaces/default/widgets {"apiVersion":"demo.example/v1","kind":"Widget","metadata":{"name":"w1"}} => 201
open 3 => -
marked in 3 DELETE /apis/demo.example/v1/namespaces/default/widgets/w1 HTTP/1.1|$Host: x|$|$ => -
else stand 3 => 0 false true
else ask 4 GET namespaces/default/widgets/w1 => 200
else out 4 => HTTP/1.1 200 OK|$Content-Type: application/json|$Content-Length: 117|$Connection: close|$|${"apiVersion":"demo.example/v1","kind":"Widget","metadata":{"name":"w1","namespace":"default","resourceVersion":"2"}}
else in 4 DELETE => -
else ask 5 DELETE namespaces/default/widgets/w1 => 200
else out 5 => HTTP/1.1 200 OK|$Content-Type: application/json|$Content-Length: 117|$Connection: close|$|${"apiVersion":"demo.example/v1","kind":"Widget","metadata":{"name":"w1","namespace":"default","resourceVersion":"3"}}
done out 3 => HTTP/1.1 200 OK|$Content-Type: application/json|$Content-Length: 117|$Connection: close|$|${"apiVersion":"demo.example/v1","kind":"Widget","metadata":{"name":"w1","namespace":"default","resourceVersion":"3"}}
ask 6 GET namespaces/default/widgets/w1 => 404
out 6 => HTTP/1.1 404 Not Found|$Content-Type: application/json|$Content-Length: 149|$Connection: close|$|${"apiVersion":"v1","code":404,"kind":"Status","message":"widgets.demo.example \"w1\" not found","metadata":{},"reason":"NotFound","status":"Failure"}
ask 7 GET widgets?resourceVersion=4 => 504
out 7 => HTTP/1.1 504 Gateway Timeout|$Content-Type: application/json|$Content-Length: 152|$Connection: close|$|${"apiVersion":"v1","code":504,"kind":"Status","message":"Too large resource version: 4, current: 3","metadata":{},"reason":"Timeout","status":"Failure"}

other_types on each kind: nothing changes, and the same change is done
ask 2 PATCH namespaces/default/widgets/w1?fieldManager=alice {"apiVersion":"demo.example/v1","kind":"Widget","spec":{"ports":[{"name":"web","port":80}]}} => 201
out 2 => HTTP/1.1 201 Created|$Content-Type: application/json|$Content-Length: 366|$Connection: close|$|${"apiVersion":"demo.example/v1","kind":"Widget","metadata":{"managedFields":[{"apiVersion":"demo.example/v1","fieldsType":"FieldsV1","fieldsV1":{"f:spec":{"f:ports":{"k:{\"name\":\"web\"}":{".":{},"f:name":{},"f:port":{}}}}},"manager":"alice","operation":"Apply"}],"name":"w1","namespace":"default","resourceVersion":"2"},"spec":{"ports":[{"name":"web","port":80}]}}
ask 3 PATCH namespaces/default/widgets/w1?fieldManager=bob {"apiVersion":"demo.example/v1","kind":"Widget","spec":{"ports":[{"name":"web","note":"x"}]}} => 200
out 3 => HTTP/1.1 200 OK|$Content-Type: application/json|$Content-Length: 562|$Connection: close|$|${"apiVersion":"demo.example/v1","kind":"Widget","metadata":{"managedFields":[{"apiVersion":"demo.example/v1","fieldsType":"FieldsV1","fieldsV1":{"f:spec":{"f:ports":{"k:{\"name\":\"web\"}":{".":{},"f:name":{},"f:port":{}}}}},"manager":"alice","operation":"Apply"},{"apiVersion":"demo.example/v1","fieldsType":"FieldsV1","fieldsV1":{"f:spec":{"f:ports":{"k:{\"name\":\"web\"}":{".":{},"f:name":{},"f:note":{}}}}},"manager":"bob","operation":"Apply"}],"name":"w1","namespace":"default","resourceVersion":"3"},"spec":{"ports":[{"name":"web","note":"x","port":80}]}}
ask 4 PATCH namespaces/default/widgets/w2?fieldManager=carol {"apiVersion":"demo.example/v1","kind":"Widget","spec":{"replicas":1}} => 201
out 4 => HTTP/1.1 201 Created|$Content-Type: application/json|$Content-Length: 292|$Connection: close|$|${"apiVersion":"demo.example/v1","kind":"Widget","metadata":{"managedFields":[{"apiVersion":"demo.example/v1","fieldsType":"FieldsV1","fieldsV1":{"f:spec":{"f:replicas":{}}},"manager":"carol","operation":"Apply"}],"name":"w2","namespace":"default","resourceVersion":"4"},"spec":{"replicas":1}}
ask 5 GET namespaces/default/widgets?watch=true&resourceVersion=4 => 200
out 5 => HTTP/1.1 200 OK|$Content-Type: application/json|$Transfer-Encoding: chunked|$Connection: close|$|$
marked types 0 ports atomic => -
else ask 6 GET namespaces/default/widgets/w1 => 200
else out 6 => HTTP/1.1 200 OK|$Content-Type: application/json|$Content-Length: 562|$Connection: close|$|${"apiVersion":"demo.example/v1","kind":"Widget","metadata":{"managedFields":[{"apiVersion":"demo.example/v1","fieldsType":"FieldsV1","fieldsV1":{"f:spec":{"f:ports":{"k:{\"name\":\"web\"}":{".":{},"f:name":{},"f:port":{}}}}},"manager":"alice","operation":"Apply"},{"apiVersion":"demo.example/v1","fieldsType":"FieldsV1","fieldsV1":{"f:spec":{"f:ports":{"k:{\"name\":\"web\"}":{".":{},"f:name":{},"f:note":{}}}}},"manager":"bob","operation":"Apply"}],"name":"w1","namespace":"default","resourceVersion":"3"},"spec":{"ports":[{"name":"web","note":"x","port":80}]}}
else pump 5 10 => -
else out 5 => -
else types 0 ports atomic => -
ask 7 GET namespaces/default/widgets => 200
out 7 => HTTP/1.1 200 OK|$Content-Type: application/json|$Content-Length: 843|$Connection: close|$|${"apiVersion":"demo.example/v1","items":[{"apiVersion":"demo.example/v1","kind":"Widget","metadata":{"managedFields":[{"apiVersion":"demo.example/v1","fieldsType":"FieldsV1","fieldsV1":{"f:spec":{"f:ports":{}}},"manager":"alice","operation":"Apply"},{"apiVersion":"demo.example/v1","fieldsType":"FieldsV1","fieldsV1":{"f:spec":{"f:ports":{}}},"manager":"bob","operation":"Apply"}],"name":"w1","namespace":"default","resourceVersion":"5"},"spec":{"ports":[{"name":"web","note":"x","port":80}]}},{"apiVersion":"demo.example/v1","kind":"Widget","metadata":{"managedFields":[{"apiVersion":"demo.example/v1","fieldsType":"FieldsV1","fieldsV1":{"f:spec":{"f:replicas":{}}},"manager":"carol","operation":"Apply"}],"name":"w2","namespace":"default","resourceVersion":"4"},"spec":{"replicas":1}}],"kind":"WidgetList","metadata":{"resourceVersion":"5"}}
pump 5 10 => -
out 5 => 1e2|${"type":"MODIFIED","object":{"apiVersion":"demo.example/v1","kind":"Widget","metadata":{"managedFields":[{"apiVersion":"demo.example/v1","fieldsType":"FieldsV1","fieldsV1":{"f:spec":{"f:ports":{}}},"manager":"alice","operation":"Apply"},{"apiVersion":"demo.example/v1","fieldsType":"FieldsV1","fieldsV1":{"f:spec":{"f:ports":{}}},"manager":"bob","operation":"Apply"}],"name":"w1","namespace":"default","resourceVersion":"5"},"spec":{"ports":[{"name":"web","note":"x","port":80}]}}}$|$"#;
