//! UNIT-1: the units that the fields of a road, a curve and an answer are in.

/// UNIT-1: a speed in thousandths of mi/h.
pub type Speed = u64;

/// UNIT-1: a capacity or a breakpoint in hundredths of passenger cars per hour per lane.
pub type Capacity = u64;

/// UNIT-1: a flow rate in whole passenger cars per hour per lane.
pub type FlowRate = u64;

/// UNIT-1: a density in tenths of a passenger car per mile per lane.
pub type Density = u64;

/// UNIT-1: a length in tenths of a foot.
pub type Length = u64;

/// UNIT-1: a share or a factor in thousandths.
pub type Share = u64;

/// UNIT-1: a demand or a service volume in vehicles per hour.
pub type Demand = u64;
