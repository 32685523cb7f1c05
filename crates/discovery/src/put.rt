//! JSON texts written token by token, with the commas that the JSON library puts. What the tokens say is said where they
//! are handed in.
ghost use Rattle.std.specs.Prelude.{OnOk, ◌∷◌, [], map};
ghost use Rattle.std.specs.List.{AllByRecursion};
ghost use Rattle.json.specs.Print.{IsPrintable};
ghost use Rattle.json.specs.Reads.{token_of};
ghost use Rattle.discovery.specs.Writing.{Adds};

use json::{Token, Writer};
use std::alloc::AllocError;

fn put_one(writer: &mut Writer, token: &Token<'_>) -> Result<(), AllocError>
    requires { IsPrintable (token_of token.now) }
    ensures { OnOk result (Adds (token_of token.now ∷ []) writer.old writer.new) }
{
    writer.token(*token)
}

/// Appends these tokens.
pub(crate) fn put(writer: &mut Writer, tokens: &[Token<'_>]) -> Result<(), AllocError>
    requires { AllByRecursion (λ t. IsPrintable (token_of t)) tokens.now }
    ensures { OnOk result (Adds (map token_of tokens.now) writer.old writer.new) }
{
    for next in tokens {
        put_one(writer, next)?;
    }
    Ok(())
}
