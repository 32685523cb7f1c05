//! FieldsV1 values: what they are read as, and what is written of that again; `contents` says what the questions are.

pub const FIELDS: &str = r#"fields_v1_values_are_read
set {"f:spec":{"f:tags":{"v:\"b\"":{},"v:\"a\"":{}}}} => paths .spec.tags[="a"] .spec.tags[="b"]
set {} => paths
set {"f:metadata":{"f:labels":{"f:tier":{}}},"f:spec":{"f:args":{}}} => paths .metadata.labels.tier .spec.args
set {"f:spec":{"f:ports":{"k:{\"name\":\"web\"}":{"f:port":{}}}}} => paths .spec.ports[name="web"].port
set [] => NotAnObject
set {"f:spec":{"f:image":3}} => NotAnObject
set {".":3} => NotAnObject
set {"f:spec":{"f:ports":{"k:{\"name\":\"web\"}":{"f:name":3}}}} => NotAnObject
set {"x":{}} => BadKey
set {"i:0":{}} => BadKey
set {"f:spec":{"f:ports":{"k:{\"port\":80,\"name\":\"web\"}":{".":{},"f:name":{}}}}} => BadKey
set {"x":3} => BadKey
set {"f:spec":{}} => NotCanonical
set {".":{}} => NotCanonical
set {"f:spec":{"f:tags":{"v:\"a\"":{".":{}}}}} => NotCanonical
set {"f:spec":{"f:ports":{"k:{\"name\":\"web\"}":{".":{},"f:port":{}}}}} => NotCanonical
set {"f:spec":{"f:ports":{"k:{\"name\":\"web\"}":{"f:name":{},"f:port":{}}}}} => NotCanonical
set {"f:spec":{"f:ports":{"k:{\"name\":\"web\"}":{}}}} => NotCanonical
set {"f:spec":{"f:nope":{}}} => OffSchema
set {"f:spec":{"f:replicas":{"f:x":{}}}} => OffSchema
set {"f:spec":{"f:ports":{"k:{\"port\":80}":{}}}} => OffSchema
set {"f:nope":3} => OffSchema

fields_v1_values_and_texts_are_written_again
fields {} => {}
fields {"f:spec":{"f:image":{},"f:replicas":{}}} => {"f:spec":{"f:image":{},"f:replicas":{}}}
fields {"f:spec":{"f:ports":{"k:{\"name\":\"web\"}":{".":{},"f:name":{},"f:port":{}}}}} => {"f:spec":{"f:ports":{"k:{\"name\":\"web\"}":{".":{},"f:name":{},"f:port":{}}}}}
fields {"f:spec":{"f:ports":{"k:{\"name\":\"web\"}":{"f:note":{}}}}} => {"f:spec":{"f:ports":{"k:{\"name\":\"web\"}":{"f:note":{}}}}}
fields {"f:spec":{"f:tags":{"v:\"a\"":{},"v:\"b\"":{}}}} => {"f:spec":{"f:tags":{"v:\"a\"":{},"v:\"b\"":{}}}}

fields_v1_of_paths
set {"f:spec":{"f:image":{},"f:tags":{"v:\"a\"":{}}}} => paths .spec.image .spec.tags[="a"]
fields {"f:spec":{"f:image":{},"f:tags":{"v:\"a\"":{}}}} => {"f:spec":{"f:image":{},"f:tags":{"v:\"a\"":{}}}}
set {"f:spec":{"f:ports":{"k:{\"name\":\"web\"}":{".":{},"f:name":{},"f:port":{}}}}} => paths .spec.ports[name="web"] .spec.ports[name="web"].port"#;
