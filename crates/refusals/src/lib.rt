//! Why a call is refused: one list of refusals, each with a number that callers see and that never changes.

#![tactic(auto)]

ghost use Rattle.std.specs.Prelude.{◌≡◌};
ghost use Rattle.refusals.specs.Numbers.{number};

/// ORDER-1: why a call, a line or a case is refused. Each is handed back by its number and nothing else.
#[derive(Clone, Copy, PartialEq, Eq)]
pub enum Refusal {
    /// REFUSAL-1: a speed that is not 30,000 to 90,000 thousandths of mi/h.
    SpeedOutOfRange = 1,
    /// REFUSAL-2: a lane width that is not 100 to 200 tenths of a foot.
    WidthOutOfRange = 2,
    /// REFUSAL-3: a right or left clearance above 400 tenths of a foot.
    ClearanceTooLarge = 3,
    /// REFUSAL-4: a median other than D on kind F.
    MedianUnfit = 4,
    /// REFUSAL-5: more than 48 ramps in six miles on kind F, or 200 access points per mile on kind M.
    AccessTooLarge = 5,
    /// REFUSAL-6: a lane count that is not the kind's: 2 to 8 on kind F, 2 to 3 on kind M.
    LanesNotOfTheKind = 6,
    /// REFUSAL-7: a demand above 999,999 vehicles per hour.
    DemandTooLarge = 7,
    /// REFUSAL-8: a peak-hour factor that is not 250 to 1,000 thousandths.
    FactorOutOfRange = 8,
    /// REFUSAL-9: a heavy share above 1,000 thousandths.
    ShareTooLarge = 9,
    /// REFUSAL-10: free-flow speed below 55,000 thousandths of mi/h on kind F or 45,000 on kind M, or after
    /// the speed factor below 50,000 on kind F.
    SpeedBelowLowerEnd = 10,
    /// REFUSAL-11: a survey of fewer than 100 cars.
    CarsTooFew = 11,
    /// REFUSAL-12: a survey at a flow rate of 1,000 or more passenger cars per hour per lane.
    FlowTooLarge = 12,
    /// REFUSAL-13: a surveyed speed that is no finite number, or that is not 30,000 to 90,000 thousandths of
    /// mi/h when rounded down.
    SurveyedSpeedOutOfRange = 13,
    /// REFUSAL-14: no lane count of the kind meets the letter.
    NoLaneCount = 14,
    /// REFUSAL-15: a line that is malformed, as by a letter that no field takes.
    LineMalformed = 15,
    /// REFUSAL-16: a letter's number that is not 1 to 5 (A is 1).
    LetterUnknown = 16,
    /// REFUSAL-17: fewer bytes or numbers lent than an answer may take.
    BufferTooShort = 17,
    /// REFUSAL-18: a day of no demand or of more than 24, or fewer answers lent than there are demands.
    DayUnfit = 18,
    /// REFUSAL-19: a speed or capacity factor of the weather that is not 500 to 1,000 thousandths on kind F,
    /// or not 1,000 on kind M.
    WeatherUnfit = 19,
    /// REFUSAL-20: a peak-hour or direction share of daily traffic that is not 1 to 1,000 thousandths.
    SharesUnfit = 20,
    /// REFUSAL-21: daily traffic above 4,000,000,000 vehicles.
    DailyTrafficTooLarge = 21,
    /// REFUSAL-22: a range of a forecast whose low end is above its high end.
    EndsReversed = 22,
}

impl Refusal {
    /// ORDER-1, FORM-10: its number, 1 to 22.
    pub fn number(self) -> u64
        ensures { result ≡ number self }
    {
        self as u64
    }
}
