//! The body of a request, as JSON. Its envelope is checked, and its content read, in the crate `api_validation`.

ghost use Rattle.serde_json.specs.View.{view};
ghost use Rattle.api_request.specs.Json.{IsJson, IsJson-prop};

use serde_json::{Error, Value};
use std::alloc::Global;

/// The message where a body is no JSON text, or missing though one is needed.
pub const NOT_JSON: &str = "body is not JSON";

/// The body of a request: the value of a JSON text (RFC 8259).
#[derive(Debug, Drop)]
pub struct Body {
    pub value: Value,
    pub ghost is_json: { IsJson (view value) } by { IsJson-prop (view value) },
}

impl Body {
    ghost use Rattle.std.specs.Prelude.{◌≡◌, ◌<◌, IfErr, IfOk, IsUtf8, None, Some, length};
    ghost use Rattle.serde_json.specs.Errors.{IsMemory};
    ghost use Rattle.serde_json.specs.Read.{read as read_text};
    ghost use Rattle.api_request.specs.Views.{body_seen};

    /// The body that these bytes are, or why they are no JSON text.
    pub fn read(alloc: Global, bytes: &[u8]) -> Result<Body, Error>
        ensures ok { IfOk result (λ b. IsUtf8 bytes.now × (read_text bytes.now ≡ Some (body_seen b))) }
        ensures err { IfErr result (λ e. ¬ IsMemory e → IsUtf8 bytes.now → read_text bytes.now ≡ None) }
        ensures memory { IfErr result (λ e. IsMemory e → 0 < length bytes.now) }
    {
        let value = Value::from_slice(alloc, bytes)?;
        Ok(Body { value })
    }

    /// The value that the text is of.
    pub fn value(&self) -> &Value
        ensures { view result.now ≡ body_seen self.now }
    {
        &self.value
    }
}
