//! The type that an option asks for, by its names.

ghost use Rattle.std.specs.Prelude.{◌≡◌, option_map};
ghost use Rattle.programs.specs.Resources.{cut_at_slash, resource_in};
ghost use Rattle.programs.specs.Views.{resource_of};

/// A type by its names, as they stand in the path of a request.
#[derive(Clone, Copy, Debug)]
pub struct Resource<'a> {
    pub group: &'a str,
    pub version: &'a str,
    pub plural: &'a str,
}

/// The two texts that the first slash parts.
fn cut_at_slash(text: &str) -> Option<(&str, &str)>
    ensures { option_map (λ cut. (cut.0.now, cut.1.now)) result ≡ cut_at_slash text.now }
{
    text.split_once('/')
}

/// Group, version and plural of `<group>/<version>/<plural>`.
pub fn resource_in(text: &str) -> Option<Resource<'_>>
    ensures { option_map resource_of result ≡ resource_in text.now }
{
    let (group, rest) = cut_at_slash(text)?;
    let (version, plural) = cut_at_slash(rest)?;
    if cut_at_slash(plural).is_some() {
        return None;
    }
    Some(Resource {
        group,
        version,
        plural,
    })
}
