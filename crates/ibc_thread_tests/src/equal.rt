//! Lists that ledgers tell.

use ibc_ids::Refusal;

/// Whether two lists were told and are the same. Refused: as the first of them that was refused.
pub fn are_equal<T: PartialEq + Drop>(
    one: Result<Vec<T>, Refusal>,
    other: Result<Vec<T>, Refusal>,
) -> Result<bool, Refusal> {
    let are_equal = match (&one, &other) {
        (Ok(one), Ok(other)) => Ok(one.as_slice() == other.as_slice()),
        (Err(refusal), _) | (_, Err(refusal)) => Err(*refusal),
    };
    drop(one);
    drop(other);
    are_equal
}
