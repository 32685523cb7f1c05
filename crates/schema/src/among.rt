//! Whether a name is among others. Whether it is that of a key field, a schema says: `step`.
ghost use Rattle.std.specs.Prelude.{◌≡◌, map};
ghost use Rattle.schema.specs.Among.{is_in};

/// Whether a name is one of these.
pub fn is_in(names: &[&str], name: &str) -> bool
    ensures { result ≡ is_in (map (λ n. n.now) names.now) name.now }
{
    names.iter().any(|known| *known == name)
}
