//! The parts of a path, found by the names that its route gives them. Where they lead stands in `place`.

ghost use Rattle.std.specs.Prelude.{◌≡◌, ◌∷◌, option_map};
ghost use Rattle.std.specs.Option.{option_or};
ghost use Rattle.matchit.specs.Params.{AllText, named};
ghost use Rattle.api_request.specs.Admit.{Parts};
ghost use Rattle.api_request.specs.Parts.{AreParts};
ghost use Rattle.api_request.specs.Views.{parts_of};

use matchit::Params;

/// The parts of a path. Not each route has each.
#[derive(Clone, Copy, Debug)]
pub struct PathParts<'p> {
    pub group: Option<&'p str>,
    pub version: Option<&'p str>,
    pub plural: Option<&'p str>,
    pub namespace: Option<&'p str>,
    pub name: Option<&'p str>,
}

/// The part that was found of a name that is wanted, or else the next part, if it has that name.
fn or_next<'p>(found: Option<&'p str>, wanted: &str, name: &str, part: &'p str) -> Option<&'p str>
    ensures { (rest : Parts) → option_or (option_map (λ s. s.now) result) (named wanted.now rest) ≡ option_or (option_map (λ s. s.now) found.entry) (named wanted.now ((name.now, part.now) ∷ rest)) }
{
    if name == wanted {
        found.or(Some(part))
    } else {
        found
    }
}

/// The parts that the parameters of a route took, in one walk over these.
pub fn parts_in<'p>(params: &Params<'_, 'p>) -> PathParts<'p>
    requires { AllText (parts_of params.now) }
    ensures { AreParts result (parts_of params.now) }
{
    let mut parts = PathParts {
        group: None,
        version: None,
        plural: None,
        namespace: None,
        name: None,
    };
    for (name, part) in params.iter() {
        parts = PathParts {
            group: or_next(parts.group, "group", name, part),
            version: or_next(parts.version, "version", name, part),
            plural: or_next(parts.plural, "plural", name, part),
            namespace: or_next(parts.namespace, "namespace", name, part),
            name: or_next(parts.name, "name", name, part),
        };
    }
    parts
}
