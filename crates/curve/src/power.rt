//! CURVE-5: T(i), the power 1.31 of i thousandths in millionths, i from 0 to 1,000.

ghost use Rattle.std.specs.Prelude.{◌≡◌, ◌≤◌};
ghost use Rattle.curve.specs.Power.{power};

use crate::power_table::POWERS;

/// CURVE-5, FORM-6: T(i), in millionths, from the constant table.
#[tactic(auto, using(crate::proofs::PowerLaws::table_entries), unfolding(crate::proofs::PowerTable::power_table))]
pub fn power(i: u64) -> u64
    requires { i ≤ 1000 }
    ensures { result ≡ power i }
{
    u64::from(POWERS[i as usize])
}
