//! The words of a row: four of the root, big-endian, and one of the time.
ghost use Rattle.std.specs.Prelude.{◌≡◌, ◌+◌, ◌*◌, ◌<◌};
ghost use Rattle.ibc_root_table.specs.Publications.{IsRoot, row_of, root_word, bytes_of_row};

use ibc_ids::Root;

pub const ROW_LEN: usize = 5;

fn root_word(bytes: &[u8; 32], part: usize) -> u64
    requires { part < 4 }
    ensures { result ≡ root_word bytes.now part }
{
    let start = 8 * part;
    let mut word = [0; 8];
    word.copy_from_slice(&bytes[start..start + 8]);
    u64::from_be_bytes(word)
}

fn row_of_bytes(bytes: &[u8; 32], time: u64) -> [u64; ROW_LEN]
    ensures words { result ≡ row_of bytes.now time }
    ensures root { IsRoot bytes.now }
{
    [
        root_word(bytes, 0),
        root_word(bytes, 1),
        root_word(bytes, 2),
        root_word(bytes, 3),
        time,
    ]
}

pub fn row_of(root: &Root, time: u64) -> [u64; ROW_LEN]
    ensures words { result ≡ row_of root.now time }
    ensures root { IsRoot root.now }
{
    row_of_bytes(root.bytes(), time)
}

pub fn root_of(row: &[u64; ROW_LEN]) -> Root
    ensures { result ≡ bytes_of_row row.now }
{
    let mut bytes = [0; 32];
    bytes[..8].copy_from_slice(&row[0].to_be_bytes());
    bytes[8..16].copy_from_slice(&row[1].to_be_bytes());
    bytes[16..24].copy_from_slice(&row[2].to_be_bytes());
    bytes[24..].copy_from_slice(&row[3].to_be_bytes());
    Root::from_bytes(bytes)
}
