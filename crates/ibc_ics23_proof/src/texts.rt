//! Tests on bytes.

ghost use Rattle.std.specs.Prelude.{◌≡◌};
ghost use Rattle.ibc_ids.specs.Texts.{same_text};
ghost use Rattle.ibc_merkle.specs.Proofs.{is_below};

/// Whether these are the same bytes.
pub fn is_same(a: &[u8], b: &[u8]) -> bool
    ensures { result ≡ same_text a.now b.now }
{
    a == b
}

/// Whether the first bytes stand below the second in byte order.
pub fn stands_below(a: &[u8], b: &[u8]) -> bool
    ensures { result ≡ is_below a.now b.now }
{
    a.cmp(b).is_lt()
}
