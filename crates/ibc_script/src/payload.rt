//! Payloads as texts.

ghost use Rattle.std.specs.Prelude.{◌≡◌, IfOk, IfSome, None};
ghost use Rattle.base64.specs.Engines.{standard};
ghost use Rattle.base64.specs.GeneralPurpose.{encode_of, IsBytes};
ghost use Rattle.ibc_script.specs.ScriptValues.{IsNoNote};

use base64::DecodeAllocError;
use base64::engine::general_purpose::STANDARD;
use ibc_ids::Bytes;
use std::alloc::{AllocError, Global};

/// The bytes that a text writes in base64 with the standard alphabet and padding (RFC 4648), or `None` where it writes
/// none.
pub fn payload_of(alloc: Global, text: &str) -> Result<Option<Bytes>, AllocError>
    ensures some { IfOk result (λ found. IfSome found (λ bytes. text.now ≡ encode_of standard bytes)) }
    ensures none { IfOk result (λ found. found ≡ None → IsNoNote text.now) }
    ensures bytes { IfOk result (λ found. IfSome found IsBytes) }
{
    match STANDARD.decode(alloc, text.as_bytes()) {
        Ok(bytes) => Ok(Some(Bytes::from_vec(bytes))),
        Err(DecodeAllocError::DecodeError(_)) => Ok(None),
        Err(DecodeAllocError::OutOfMemory) => Err(AllocError),
    }
}
