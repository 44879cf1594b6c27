//! What a flow rate gets on a curve: speed, density and letter.

ghost use Rattle.std.specs.Prelude.{◌≡◌, ◌≤◌};
ghost use Rattle.curve.specs.Service.{letter_number, density_limit, density_letter, performance, meets_limit};

use crate::speed::CurveTerms;
use numbers::units::{Density, FlowRate, Speed};

/// LETTER-3: the level of service.
#[derive(Clone, Copy, PartialEq, Eq)]
pub enum Letter {
    A = 1,
    B = 2,
    C = 3,
    D = 4,
    E = 5,
    F = 6,
}

/// CURVE-6, CURVE-7, LETTER-1: speed and density as they are shown, and the letter.
#[derive(Clone, Copy, PartialEq, Eq)]
pub struct Performance {
    /// LETTER-2: 0 above capacity
    pub speed: Speed,
    /// LETTER-2: 0 above capacity
    pub density: Density,
    pub letter: Letter,
}

impl Letter {
    /// LETTER-3: A is 1, the best, and F is 6, the worst.
    pub fn number(self) -> u64
        ensures { result ≡ letter_number self }
    {
        self as u64
    }

    /// LETTER-1: the greatest density that gets the letter or a better one. F has E's.
    #[tactic(auto, unfolding(crate::specs::Service::density_limit))]
    pub fn density_limit(self) -> Density
        ensures { result ≡ density_limit (letter_number self) }
    {
        match self {
            Letter::A => 110,
            Letter::B => 180,
            Letter::C => 260,
            Letter::D => 350,
            Letter::E | Letter::F => 450,
        }
    }

    /// LETTER-1, FORM-5: the letter of a density up to capacity.
    #[tactic(auto, unfolding(crate::specs::Service::density_limit, crate::specs::Service::density_letter))]
    fn of_density(density: Density) -> Letter
        ensures { result ≡ density_letter density }
    {
        match density {
            0..=110 => Letter::A,
            111..=180 => Letter::B,
            181..=260 => Letter::C,
            261..=350 => Letter::D,
            351..=450 => Letter::E,
            _ => Letter::F,
        }
    }
}

impl CurveTerms {
    /// CURVE-6, CURVE-7, LETTER-1, LETTER-2: what any flow rate gets.
    #[tactic(auto, using(crate::proofs::TermsLaws::performance_laws))]
    pub fn performance_at(&self, v: FlowRate) -> Performance
        ensures { result ≡ performance self.now.curve v }
    {
        if self.most_flow < v {
            return Performance {
                speed: 0,
                density: 0,
                letter: Letter::F,
            };
        }
        let exact = self.exact_speed(v);
        let density = (10_000 * v * exact.denominator).div_ceil(exact.numerator);
        Performance {
            speed: exact.numerator / exact.denominator,
            density,
            letter: Letter::of_density(density),
        }
    }

    /// VOLUME-1, LETTER-1: whether a flow rate keeps to capacity and to a density of at most the limit. On
    /// kind F nothing is divided.
    #[tactic(auto, using(crate::proofs::TermsLaws::limit_laws))]
    pub fn meets_limit(&self, v: FlowRate, limit: Density) -> bool
        requires { limit ≤ 450 }
        ensures { result ≡ meets_limit self.now.curve v limit }
    {
        if self.most_flow < v {
            return false;
        }
        let exact = self.exact_speed(v);
        10_000 * v * exact.denominator <= limit * exact.numerator
    }
}
