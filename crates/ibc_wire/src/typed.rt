//! What the types of messages promise: names have their form, numbers their range, and texts are of bytes.

ghost use Rattle.std.specs.Prelude.{nat_lt, IsTrue};
ghost use Rattle.std.specs.List.{list_all};
ghost use Rattle.ibc_wire.specs.Fields.{be64, be128, root32, str, one_byte};

mod channels;
mod clients;
mod connections;
mod packets;
mod transfers;

use ibc_ids::{Bytes, Root};

fn lemma_is_u8(number: u8)
    ensures { IsTrue (one_byte number).in_type }
{
    let _number = number;
}

fn lemma_is_u64(number: u64)
    ensures { IsTrue (be64 number).in_type }
{
    let _number = number;
}

fn lemma_is_u128(number: u128)
    ensures { IsTrue (be128 number).in_type }
{
    let _number = number;
}

fn lemma_is_root(root: &Root)
    ensures { IsTrue (root32 root.now).in_type }
{
    lemma_are_bytes(root.bytes());
}

fn lemma_is_text(text: &Bytes)
    ensures { IsTrue (str text.now).in_type }
{
    lemma_are_bytes(text.as_slice());
}

// Bytes are below 256.
fn lemma_are_bytes(bytes: &[u8])
    ensures { IsTrue (list_all (λ byte. nat_lt byte 256) bytes.now) }
{
    let _count = bytes.len();
}
