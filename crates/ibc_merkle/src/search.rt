//! Search among sorted pairs.

ghost use Rattle.std.specs.Prelude.{◌<◌, ◌≤◌, length, IsTrue, IfOk, IfErr};
ghost use Rattle.std.specs.FinMap.{is_sorted};
ghost use Rattle.ibc_ids.specs.Texts.{text_cmp};
ghost use Rattle.ibc_ids.specs.Maps.{IsKeyAt, IsGapFor};

use crate::entry::KeyValue;

/// The place of a key among pairs whose keys strictly rise in byte order: `Ok` with its index, or `Err` with the index
/// where it would stand.
pub fn place(entries: &[KeyValue], key: &[u8]) -> Result<usize, usize>
    requires { IsTrue (is_sorted text_cmp entries.now) }
    ensures found { IfOk result (λ index. index < length entries.now) }
    ensures here { IfOk result (IsKeyAt text_cmp key.now entries.now) }
    ensures within { IfErr result (λ index. index ≤ length entries.now) }
    ensures gap { IfErr result (IsGapFor text_cmp key.now entries.now) }
{
    entries.binary_search_by(|entry| entry.key().cmp(key))
}
