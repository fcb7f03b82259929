//! The names of chains.

ghost use Rattle.std.specs.Prelude.{◌≡◌};
ghost use Rattle.std.specs.List.{list_all};
ghost use Rattle.ibc_script.specs.ChainNames.{is_chain_name_byte, is_chain_name};

use ibc_ids::{Name, NameKind};

/// The name of a chain in a script: 1 to 16 lower-case letters and digits.
pub type ChainName = Name<ChainNameKind>;

/// The kind of chain names.
#[derive(Clone, Copy, Debug)]
pub struct ChainNameKind;

fn is_chain_name_byte(byte: u8) -> bool
    ensures { result ≡ is_chain_name_byte byte }
{
    byte.is_ascii_lowercase() || byte.is_ascii_digit()
}

fn are_chain_name_bytes(text: &[u8]) -> bool
    ensures { result ≡ list_all is_chain_name_byte text.now }
{
    text.iter().all(|byte| is_chain_name_byte(*byte))
}

fn is_chain_name(text: &[u8]) -> bool
    ensures { result ≡ is_chain_name text.now }
{
    1 <= text.len() && text.len() <= 16 && are_chain_name_bytes(text)
}

impl NameKind for ChainNameKind {
    ghost form = { is_chain_name };

    fn has_form(text: &[u8]) -> bool {
        is_chain_name(text)
    }

    #[tactic(auto, using(crate::proofs::Ascii::chain_names))]
    fn lemma_short_and_ascii() {}
}
