//! FFS-8: what ramps take off a base speed.

ghost use Rattle.std.specs.Prelude.{◌≡◌, ◌≤◌};
ghost use Rattle.road.specs.RampTerm.{ramp_term};

use crate::ramp_table::RAMP_TERMS;
use numbers::units::Speed;

/// FFS-8, FORM-8: what up to 48 ramps in six miles take off, from the constant table.
#[tactic(auto, using(crate::proofs::RampLaws::table_entries), unfolding(crate::proofs::RampTable::ramp_table))]
pub(crate) fn ramp_term(ramps: u64) -> Speed
    requires { ramps ≤ 48 }
    ensures { result ≡ ramp_term ramps }
{
    u64::from(RAMP_TERMS[ramps as usize])
}
