//! The count of texts that are hashed four at a time.

ghost use Rattle.std.specs.Prelude.{◌≡◌};
ghost use Rattle.ibc_lanes.specs.Inner.{four_more};

use ibc_merkle::Steps;

// Counts four texts, which the caller hashes.
pub(crate) fn count_four(steps: &mut Steps)
    ensures { steps.new ≡ four_more steps.old }
{
    steps.add();
    steps.add();
    steps.add();
    steps.add();
}
