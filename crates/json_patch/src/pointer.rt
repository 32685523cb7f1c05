//! JSON Pointer: a pointer's text. What lies at a pointer stands in `places`.

ghost use Rattle.std.specs.Prelude.{◌≡◌, ◌<◌, ◌++◌, None, IfOk, OnOk, MatchOption, length, map, option_map, string_bytes};
ghost use Rattle.json_patch.specs.Pointers.{after_tilde, between_slashes, pointer, token, tokens};

use std::alloc::{AllocError, Global};
use std::marker::Model;

/// A pointer: its reference tokens, the first of which is looked up in the whole value.
#[derive(Debug, Drop)]
pub struct Pointer {
    tokens: Vec<String>,
}

impl Model for Pointer {
    ghost use Rattle.std.specs.Prelude.{List, ℕ, map, string_bytes};

    ghost Value = { List (List ℕ) };

    ghost view = { λ p. map string_bytes p.tokens.items };
}

/// What a `~` stands for that this is after, and the rest.
fn escaped(after: &str) -> Option<(&'static str, &str)>
    ensures { MatchOption result (after_tilde after.now ≡ None) (λ p. (after_tilde after.now ≡ option_map (λ t. p.0.now ++ t) (token p.1.now)) × (length p.1.now < length after.now)) }
{
    if let Some(rest) = after.strip_prefix('0') {
        return Some(("~", rest));
    }
    if let Some(rest) = after.strip_prefix('1') {
        return Some(("/", rest));
    }
    None
}

fn push_both(token: &mut String, first: &str, second: &str) -> Result<(), AllocError>
    ensures { OnOk result (string_bytes token.new ≡ (string_bytes token.old ++ first.now) ++ second.now) }
{
    token.push_str(first)?;
    token.push_str(second)?;
    Ok(())
}

/// The token that is written so.
fn read_token(alloc: Global, text: &str) -> Result<Option<String>, AllocError>
    ensures { IfOk result (λ o. option_map string_bytes o ≡ token text.now) }
{
    let mut token = String::new(alloc);
    let mut rest = text;
    'escapes: while let Some((before, after)) = rest.split_once('~') {
        let Some((meant, more)) = escaped(after) else {
            return Ok(None);
        };
        push_both(&mut token, before, meant)?;
        rest = more;
    }
    token.push_str(rest)?;
    Ok(Some(token))
}

fn between_slashes<'a>(alloc: Global, text: &'a str) -> Result<Vec<&'a str>, AllocError>
    ensures { IfOk result (λ v. map (λ s. s.now) v.items ≡ between_slashes text.now) }
{
    text.split('/').collect(alloc)
}

/// The tokens of what is after the first slash.
fn read_tokens(alloc: Global, text: &str) -> Result<Option<Vec<String>>, AllocError>
    ensures { IfOk result (λ o. option_map (λ v. map string_bytes v.items) o ≡ tokens (between_slashes text.now)) }
{
    let pieces = between_slashes(alloc, text)?;
    let mut tokens = Vec::new(alloc);
    for piece in &pieces {
        let read = read_token(alloc, piece)?;
        let Some(token) = read else {
            return Ok(None);
        };
        tokens.push(token)?;
    }
    Ok(Some(tokens))
}

impl Pointer {
    /// The pointer that is written so; none where it is neither empty nor begins with a slash, or a `~` has neither `0`
    /// nor `1` after it.
    pub fn read(alloc: Global, text: &str) -> Result<Option<Pointer>, AllocError>
        ensures { IfOk result (λ o. o ≡ pointer text.now) }
    {
        if text.is_empty() {
            let tokens = Vec::new(alloc);
            return Ok(Some(Pointer { tokens }));
        }
        let Some(rest) = text.strip_prefix('/') else {
            return Ok(None);
        };
        let Some(tokens) = read_tokens(alloc, rest)? else {
            return Ok(None);
        };
        Ok(Some(Pointer { tokens }))
    }

    /// Its reference tokens.
    pub fn tokens(&self) -> &[String]
        ensures { map string_bytes result.now ≡ self.now }
    {
        &self.tokens
    }
}
