//! What lane width, clearances, median and access points take off a base speed.

ghost use Rattle.std.specs.Prelude.{◌≡◌, ◌*◌, ◌≤◌};
ghost use Rattle.road.specs.Interpolation.{interpolated};
ghost use Rattle.road.specs.Adjustments.{lane_width_adjustment, per_missing_foot, right_clearance_adjustment, counted_left_clearance};
ghost use Rattle.road.specs.Adjustments.{total_clearance, total_clearance_row, total_clearance_adjustment};
ghost use Rattle.road.specs.Adjustments.{median_adjustment, access_adjustment};

use crate::{Median, Road};
use numbers::units::{Length, Speed};

/// FFS-5: what total clearance takes off with 2 lanes, for 12, 10, 8, 6, 4, 2 and 0 feet.
static TWO_LANES: [Speed; 7] = [0, 400, 900, 1_300, 1_800, 3_600, 5_400];

/// FFS-5: what total clearance takes off with 3 lanes, for the same feet.
static THREE_LANES: [Speed; 7] = [0, 400, 900, 1_300, 1_700, 2_800, 3_900];

/// FFS-4: a tenth of what a missing foot takes off.
#[tactic(auto, unfolding(crate::specs::Adjustments::per_missing_foot))]
fn per_missing_tenth(lanes: u64) -> Speed
    ensures { 10 * result ≡ per_missing_foot lanes }
{
    match lanes {
        0..=2 => 60,
        3 => 40,
        4 => 20,
        _ => 10,
    }
}

#[tactic(auto, unfolding(crate::specs::Adjustments::total_clearance_row))]
fn total_clearance_row(lanes: u64) -> &'static [Speed; 7]
    ensures { result.now ≡ total_clearance_row lanes }
{
    if lanes <= 2 { &TWO_LANES } else { &THREE_LANES }
}

/// FFS-5, FFS-9: for a total clearance that is so many tenths short of 12 feet: an entry of the row, and its
/// part of the rise to the next.
#[tactic(auto, using(crate::proofs::AdjustmentLaws::line_laws))]
fn missing_clearance_adjustment(lanes: u64, missing: Length) -> Speed
    requires { missing ≤ 120 }
    ensures { result ≡ interpolated (total_clearance_row lanes) 20 missing }
{
    let row = total_clearance_row(lanes);
    let before = row[(missing / 20) as usize];
    let after = row[missing.div_ceil(20) as usize];
    before + (after - before) * (missing % 20) / 20
}

impl Road {
    /// FFS-3, FORM-5: both kinds.
    #[tactic(auto, unfolding(crate::specs::Adjustments::lane_width_adjustment))]
    pub(crate) fn lane_width_adjustment(&self) -> Speed
        ensures { result ≡ lane_width_adjustment self.now.lane_width }
    {
        match self.lane_width {
            0..=109 => 6_600,
            110..=119 => 1_900,
            _ => 0,
        }
    }

    /// FFS-4: kind F.
    #[tactic(auto, using(crate::proofs::AdjustmentLaws::adjustment_laws))]
    pub(crate) fn right_clearance_adjustment(&self, lanes: u64) -> Speed
        ensures { result ≡ right_clearance_adjustment self.now.right_clearance lanes }
    {
        (60 - self.right_clearance.min(60)) * per_missing_tenth(lanes)
    }

    /// FFS-5: the left clearance that counts.
    fn counted_left_clearance(&self) -> Length
        ensures { result ≡ counted_left_clearance self.now.median self.now.left_clearance }
    {
        match self.median {
            Median::Divided => self.left_clearance.min(60),
            Median::Undivided | Median::TwoWayLeftTurnLane => 60,
        }
    }

    /// FFS-5: right plus left.
    #[tactic(auto, unfolding(crate::specs::Adjustments::total_clearance))]
    fn total_clearance(&self) -> Length
        ensures { result ≡ total_clearance self.now.median self.now.right_clearance self.now.left_clearance }
    {
        self.right_clearance.min(60) + self.counted_left_clearance()
    }

    /// FFS-5: kind M.
    #[tactic(auto, using(crate::proofs::AdjustmentLaws::adjustment_laws), unfolding(crate::specs::Adjustments::total_clearance_adjustment))]
    pub(crate) fn total_clearance_adjustment(&self, lanes: u64) -> Speed
        ensures { result ≡ total_clearance_adjustment lanes
            (total_clearance self.now.median self.now.right_clearance self.now.left_clearance) }
    {
        missing_clearance_adjustment(lanes, 120 - self.total_clearance())
    }

    /// FFS-6: kind M.
    pub(crate) fn median_adjustment(&self) -> Speed
        ensures { result ≡ median_adjustment self.now.median }
    {
        match self.median {
            Median::Undivided => 1_600,
            Median::Divided | Median::TwoWayLeftTurnLane => 0,
        }
    }

    /// FFS-7: kind M.
    #[tactic(auto, unfolding(crate::specs::Adjustments::access_adjustment))]
    pub(crate) fn access_adjustment(&self) -> Speed
        requires { self.now.access ≤ 200 }
        ensures { result ≡ access_adjustment self.now.access }
    {
        (250 * self.access).min(10_000)
    }
}
