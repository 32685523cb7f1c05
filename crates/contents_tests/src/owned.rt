//! Objects of the profile `Kubernetes`, whose metadata has what controllers write; `contents` says what the questions are.

pub const OWNED: &str = r#"owned_objects
lawful => true
place f:metadata f:finalizers v:"demo.example/a" => Some(SetItem)
place f:metadata f:ownerReferences k:{"uid":"u1"} => Some(MapItem)
place f:metadata f:ownerReferences k:{"uid":"u1"} f:controller => Some(Leaf)
place f:metadata f:generateName => Some(Leaf)
place f:metadata f:generation => None
object {"apiVersion":"demo.example/v1","kind":"Widget","metadata":{"annotations":{"a":"1"},"finalizers":["demo.example/a","demo.example/b"],"generateName":"w-","labels":{"tier":"web"},"name":"w1","namespace":"default","ownerReferences":[{"apiVersion":"v1","blockOwnerDeletion":true,"controller":true,"kind":"Gadget","name":"g1","uid":"u1"}],"resourceVersion":"2"}} => same
object {"apiVersion":"demo.example/v1","kind":"Widget","metadata":{"finalizers":["demo.example/a","demo.example/a"],"name":"w1","namespace":"default","resourceVersion":"2"}} => refused
object {"apiVersion":"demo.example/v1","kind":"Widget","metadata":{"name":"w1","namespace":"default","ownerReferences":[{"name":"g1"}],"resourceVersion":"2"}} => refused"#;
