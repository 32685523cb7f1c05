//! The methods of requests. Which of them a path serves stands in `resource`.

ghost use Rattle.std.specs.Prelude.{◌≡◌};
ghost use Rattle.api_request.specs.Admit.{method_named};

/// RFC 9110, section 9; RFC 5789.
#[derive(Clone, Copy, Debug, PartialEq, Eq)]
pub enum Method {
    Get,
    Post,
    Put,
    Patch,
    Delete,
}

impl Method {
    /// The method of this name; it is told from others by case (RFC 9110, section 9.1).
    pub fn named(name: &str) -> Option<Method>
        ensures { result ≡ method_named name.now }
    {
        match name {
            "GET" => Some(Method::Get),
            "POST" => Some(Method::Post),
            "PUT" => Some(Method::Put),
            "PATCH" => Some(Method::Patch),
            "DELETE" => Some(Method::Delete),
            _ => None,
        }
    }
}
