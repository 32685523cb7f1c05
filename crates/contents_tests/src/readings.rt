//! Contents as they are read under a schema, put over one another, and printed; `contents` and `two_contents` say what the
//! questions are.

/// A type with each kind of field, and keyed items also inside an atomic map.
pub const KINDS: &str = r#"{"types":[
 {"group":"demo.example","version":"v1","kind":"Widget","plural":"widgets",
  "schema":{"type":"object","properties":{"spec":{"type":"object","properties":{
   "args":{"type":"array","items":{"type":"string"}},
   "config":{"type":"object","additionalProperties":{"type":"string"}},
   "frozen":{"type":"object","x-kubernetes-map-type":"atomic","additionalProperties":
    {"type":"array","x-kubernetes-list-type":"map","x-kubernetes-list-map-keys":["name"],
     "items":{"type":"object","properties":{"name":{"type":"string"},"port":{"type":"integer"}}}}},
   "image":{"type":"string"},
   "numbers":{"type":"array","x-kubernetes-list-type":"set","items":{"type":"integer"}},
   "ports":{"type":"array","x-kubernetes-list-type":"map","x-kubernetes-list-map-keys":["name"],
    "items":{"type":"object","properties":{"name":{"type":"string"},
     "note":{"type":"string"},"port":{"type":"integer"}}}},
   "ready":{"type":"boolean"},
   "replicas":{"type":"integer"},
   "tags":{"type":"array","x-kubernetes-list-type":"set","items":{"type":"string"}}
  }}}}}]}"#;

pub const READINGS: &str = r#"a_content_is_an_object
read 5 => : not an object

texts_in_order
in-order {"a":[null,true,-1,"\n"],"b":{}} => {"a":[null,true,-1,"\n"],"b":{}}
in-order { "a" : [ ] } => {"a":[]}
in-order {"b":1,"a":2} => none
in-order {"a":{"b":1,"b":2}} => none
in-order {"a":[1.0]} => none
in-order {"a":-0} => none
in-order 18446744073709551615 => 18446744073709551615
in-order 18446744073709551616 => none
in-order [1 => none

read_from_borrowed_values
borrowed {"spec":{"args":["x","y"],"config":{"a":"1","b":null},"frozen":{"ports":[{"name":"a"}]},"image":"i","ports":[{"name":"web","port":80}],"ready":true,"replicas":3,"tags":["b","a"]}} => {"spec":{"args":["x","y"],"config":{"a":"1"},"frozen":{"ports":[{"name":"a"}]},"image":"i","ports":[{"name":"web","port":80}],"ready":true,"replicas":3,"tags":["a","b"]}}
borrowed 5 => : not an object
borrowed {"spec":{"nope":[]}} => .spec.nope: unknown field
borrowed {"spec":{"config":{"a b":1}}} => .spec.config.a b: wrong type
borrowed {"spec":{"ports":[{"name":null,"port":"x"}]}} => .spec.ports[0]: key field missing
borrowed {"spec":{"ports":[{"name":"a"},{"name":"a","port":"x"}]}} => .spec.ports[1].port: wrong type
borrowed {"spec":{"ports":[{"name":"a"},{"name":"a"}]}} => .spec.ports: duplicate item
borrowed {"spec":{"tags":["a","a"]}} => .spec.tags: duplicate item

sets_from_borrowed_values
borrowed-set {"f:spec":{"f:config":{"f:a":{}},"f:ports":{"k:{\"name\":\"web\"}":{".":{},"f:name":{},"f:port":{}}},"f:tags":{"v:\"a\"":{}}}} => {"f:spec":{"f:config":{"f:a":{}},"f:ports":{"k:{\"name\":\"web\"}":{".":{},"f:name":{},"f:port":{}}},"f:tags":{"v:\"a\"":{}}}}
borrowed-set {"f:spec":3} => NotAnObject
borrowed-set {"x":{}} => BadKey
borrowed-set {"f:spec":{}} => NotCanonical
borrowed-set {"f:spec":{"f:ports":{"k:{\"name\":\"web\"}":{".":{}}}}} => NotCanonical
borrowed-set {"f:spec":{"f:nope":{}}} => OffSchema

the_other_content_overrides
merge {"spec":{"image":"a","replicas":1}} and {"spec":{"image":"b","config":null,"tags":[]}} => {"spec":{"image":"b","replicas":1}}
lay {"spec":{"image":"a"}} and {"spec":{"image":"b","replicas":1}} => {"spec":{"image":"a","replicas":1}}

contents_side_by_side
own {"spec":{"config":{"a":"1"},"image":"b","ready":true}} and {"spec":{"image":"a","ready":true,"replicas":1}} => paths .spec.config.a .spec.image .spec.ready
changed {"spec":{"config":{"a":"1"},"image":"b","ready":true}} and {"spec":{"image":"a","ready":true,"replicas":1}} => paths .spec.config.a .spec.image
added {"spec":{"config":{"a":"1"},"image":"b","ready":true}} and {"spec":{"image":"a","ready":true,"replicas":1}} => paths .spec.config.a
modified {"spec":{"config":{"a":"1"},"image":"b","ready":true}} and {"spec":{"image":"a","ready":true,"replicas":1}} => paths .spec.image
removed {"spec":{"config":{"a":"1"},"image":"b","ready":true}} and {"spec":{"image":"a","ready":true,"replicas":1}} => paths .spec.replicas
less {"spec":{"config":{"a":"1"},"image":"b","ready":true}} and {"spec":{"image":"a","ready":true,"replicas":1}} => {"spec":{"config":{"a":"1"}}}"#;
