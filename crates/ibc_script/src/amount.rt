//! Amounts as texts.

ghost use Rattle.std.specs.Prelude.{◌≡◌, IfOk, IfSome, None, decimal};
ghost use Rattle.ibc_script.specs.ScriptValues.{IsNoAmount};

use std::alloc::{AllocError, Global};

/// The amount that a text writes in decimal digits without leading zeros, or `None` where it writes none below 2^128.
pub fn amount_of(alloc: Global, text: &str) -> Result<Option<u128>, AllocError>
    ensures some { IfOk result (λ found. IfSome found (λ amount. text.now ≡ decimal amount)) }
    ensures none { IfOk result (λ found. found ≡ None → IsNoAmount text.now) }
{
    let Ok(amount) = text.parse::<u128>() else {
        return Ok(None);
    };
    let written = format!(in alloc; "{amount}")?;
    if written.as_str() == text {
        Ok(Some(amount))
    } else {
        Ok(None)
    }
}
