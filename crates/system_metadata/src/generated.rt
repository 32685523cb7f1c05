//! Names that are made of a prefix, `generateName`, and a number (Kubernetes API conventions, "Metadata").

ghost use Rattle.std.specs.Prelude.{◌≡◌, ℕ, List, IfOk, option_map, string_bytes};
ghost use Rattle.system_metadata.specs.GeneratedNames.{generated_name, name_if_free, free_name, is_name_prefix};

use crate::digits::push_digits;
use crate::taken_names::TakenNames;
use names::is_dns_subdomain;
use std::alloc::{AllocError, Global};

/// How many names a prefix has: 27 to the fifth.
pub const NAMES: u64 = 14_348_907;

const LETTERS: &[u8] = b"bcdfghjklmnpqrstvwxz2456789";

/// The most bytes of a prefix that a name keeps.
const MAX_KEPT: usize = 58;

/// The most bytes of a prefix.
const MAX_PREFIX: usize = 253;

/// The name of a prefix and a number.
pub fn generated_name(alloc: Global, prefix: &str, number: u64) -> Result<String, AllocError>
    ensures { IfOk result (λ name. string_bytes name ≡ generated_name prefix.now number) }
{
    let mut name = String::from_str(alloc, &prefix[..prefix.floor_char_boundary(MAX_KEPT)])?;
    push_digits(&mut name, LETTERS, 5, number)?;
    Ok(name)
}

/// The name of a number, unless an object has it.
fn name_if_free<N: TakenNames>(
    alloc: Global,
    names: &mut N,
    prefix: &str,
    number: u64,
) -> Result<Option<String>, N::Fault>
    ensures ok { IfOk result (λ found. option_map string_bytes found ≡ name_if_free (N.taken names.old) prefix.now number) }
    ensures stays { (text : List ℕ) → N.taken names.new text ≡ N.taken names.old text }
{
    let name = generated_name(alloc, prefix, number)?;
    if names.is_taken(name.as_str())? {
        return Ok(None);
    }
    Ok(Some(name))
}

/// The name of the first number from this one on, round at `NAMES`, that no object has; none where all are taken.
pub fn free_name<N: TakenNames>(
    alloc: Global,
    names: &mut N,
    prefix: &str,
    number: u64,
) -> Result<Option<String>, N::Fault>
    ensures ok { IfOk result (λ found. option_map string_bytes found ≡ free_name (N.taken names.old) prefix.now number) }
    ensures stays { (text : List ℕ) → N.taken names.new text ≡ N.taken names.old text }
{
    let first = number % NAMES;
    for step in 0..NAMES {
        let found = name_if_free(alloc, names, prefix, first + step)?;
        if found.is_some() {
            return Ok(found);
        }
    }
    Ok(None)
}

/// Whether a text can be a `generateName`: a name, or a name and `-`, of at most 253 bytes.
pub fn is_name_prefix(text: &str) -> bool
    ensures { result ≡ is_name_prefix text.now }
{
    text.len() <= MAX_PREFIX && is_dns_subdomain(text.strip_suffix('-').unwrap_or(text))
}
