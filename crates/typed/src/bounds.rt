//! Which names lie between two others. The members that have such names are written in `write`.
ghost use Rattle.std.specs.Prelude.{◌≡◌, ◌&&◌, option_map};
ghost use Rattle.typed.specs.Between.{is_above, is_below};

/// Whether a name lies above another, where there is one.
fn is_above(name: &str, low: Option<&str>) -> bool
    ensures { result ≡ is_above (option_map (λ b. b.now) low.entry) name.now }
{
    match low {
        Some(low) => low < name,
        None => true,
    }
}

/// Whether a name lies below another, where there is one.
fn is_below(name: &str, high: Option<&str>) -> bool
    ensures { result ≡ is_below (option_map (λ b. b.now) high.entry) name.now }
{
    match high {
        Some(high) => name < high,
        None => true,
    }
}

/// Whether a name lies above the one and below the other, where there are such.
pub(crate) fn is_between(name: &str, low: Option<&str>, high: Option<&str>) -> bool
    ensures { result ≡ (is_above (option_map (λ b. b.now) low.entry) name.now && is_below (option_map (λ b. b.now) high.entry) name.now) }
{
    is_above(name, low) && is_below(name, high)
}
