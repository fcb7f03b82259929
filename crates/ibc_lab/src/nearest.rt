//! The known word that a misspelt one is nearest to.

ghost use Rattle.std.specs.Prelude.{◌<◌, length, IfOk, IfSome};

use std::alloc::{AllocError, Global};
use strsim::levenshtein;

/// Longer words are near to none.
const LONGEST: usize = 64;

/// The place of the known word that few edits lead to from a word: at most one for three of its bytes, and one for a
/// shorter one. Of several as near it is the first.
pub fn nearest(alloc: Global, word: &str, known: &[&str]) -> Result<Option<usize>, AllocError>
    ensures { IfOk result (λ found. IfSome found (λ index. index < length known.now)) }
{
    if word.len() > LONGEST {
        return Ok(None);
    }
    let mut found = None;
    let mut fewest = word.len() / 3 + 2;
    for (index, candidate) in known.iter().enumerate() {
        let edits = levenshtein(alloc, word, candidate)?;
        if edits < fewest {
            fewest = edits;
            found = Some(index);
        }
    }
    Ok(found)
}
