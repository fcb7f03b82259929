//! How one value is made behind others, which go along with it: so nothing else is held where one can't be made.

use crate::run_error::RunError;

/// A value that was made, behind those that were made before.
pub fn made_behind<A: Drop, B: Drop>(
    before: A,
    made: Result<B, RunError>,
) -> Result<(A, B), RunError> {
    match made {
        Ok(made) => Ok((before, made)),
        Err(error) => {
            drop(before);
            Err(error)
        }
    }
}
