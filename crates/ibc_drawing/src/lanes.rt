//! Where the lanes of chains stand.

ghost use Rattle.std.specs.Prelude.{◌≡◌, ◌≤◌};
ghost use Rattle.ibc_drawing.specs.Lanes.{lane_x, width_of};

/// What is left free at the sides.
pub const MARGIN: usize = 24;

/// Labels of the first and the last lane have so much room.
const LABEL: usize = 340;

/// Between two lanes.
const LANE: usize = 320;

/// Where the lane of a chain stands, from the left. None stands further than that of chain 255.
pub fn lane_x(chain: u8) -> usize
    ensures stands { result ≡ lane_x chain }
    ensures near { result ≤ lane_x 255 }
{
    MARGIN + LABEL + LANE * usize::from(chain)
}

/// How wide a picture of so many chains is.
pub fn width_of(chains: u8) -> usize
    ensures { result ≡ width_of chains }
{
    lane_x(chains) - LANE + LABEL + MARGIN
}
