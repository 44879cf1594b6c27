//! A line read as the case that it describes.

ghost use Rattle.std.specs.Prelude.{◌≡◌, Ok, [], take, drop, option_map};
ghost use Rattle.lines.specs.Fields.{layout, completed, values_of};
ghost use Rattle.lines.specs.Reading.{read_line, case_values};
ghost use Rattle.lines.specs.ReadSoFar.{left, or_clear, weather_values, road_values, clear_values, before, Reads};

use crate::field::Fields;
use curve::Weather;
use refusals::Refusal;
use road::{Case, Road};

/// LINE-5: the most bytes of a line; a longer one is malformed.
pub const LONGEST_LINE: usize = 80;

impl<'a> Fields<'a> {
    /// LINE-1: both factors.
    #[inline(always)]
    #[tactic(auto, unfolding(crate::specs::Fields::layout))]
    fn factors(&mut self) -> Option<Weather>
        ensures { Reads (drop 13 layout) (option_map weather_values result) (left self.old) (left self.new) }
    {
        Some(Weather {
            speed_factor: self.number()?,
            capacity_factor: self.number()?,
        })
    }

    /// LINE-4: both factors, or clear weather where no field is left.
    #[inline(always)]
    #[tactic(auto, using(crate::proofs::FieldsLaws::weather_laws))]
    fn weather(&mut self) -> Option<Weather>
        ensures { Reads (drop 13 layout) (option_map weather_values result)
            (or_clear (left self.old)) (left self.new) }
    {
        match self.rest {
            None => Some(Weather::CLEAR),
            Some(_) => self.factors(),
        }
    }

    #[tactic(auto, unfolding(crate::specs::Fields::layout))]
    fn road(&mut self) -> Option<Road>
        ensures { Reads (take 8 layout) (option_map road_values result) (left self.old) (left self.new) }
    {
        Some(Road {
            kind: self.letter()?,
            way: self.letter()?,
            speed: self.number()?,
            lane_width: self.number()?,
            right_clearance: self.number()?,
            left_clearance: self.number()?,
            median: self.letter()?,
            access: self.number()?,
        })
    }

    /// LINE-1: the first 13 fields, in clear weather.
    #[tactic(auto, unfolding(crate::specs::Fields::layout))]
    fn in_clear_weather(&mut self) -> Option<Case>
        ensures { Reads (take 13 layout) (option_map clear_values result) (left self.old) (left self.new) }
    {
        Some(Case {
            road: self.road()?,
            lanes: self.number()?,
            demand: self.demand()?,
            peak_hour_factor: self.number()?,
            heavy_share: self.number()?,
            terrain: self.letter()?,
            weather: Weather::CLEAR,
        })
    }

    fn case(&mut self) -> Option<Case>
        ensures { values_of layout (completed (left self.old))
            ≡ before (option_map (λ c. case_values (Ok c)) result) (values_of [] (left self.new)) }
    {
        let case = self.in_clear_weather()?;
        Some(Case {
            weather: self.weather()?,
            ..case
        })
    }
}

/// LINE-6, REFUSAL-15, FORM-4: the case of a line without its newline, 13 or 15 fields parted by tabs; 15
/// where the line is malformed or longer than 80 bytes. What the numbers may be is not asked. Not inlined, so
/// that the engine that a caller goes on to has the registers.
#[inline(never)]
#[tactic(auto, using(crate::proofs::FieldsLaws::line_laws), unfolding(crate::specs::Reading::read_values))]
pub fn read_line(line: &[u8]) -> Result<Case, Refusal>
    ensures { result ≡ read_line line.now }
{
    if LONGEST_LINE < line.len() {
        return Err(Refusal::LineMalformed);
    }
    let mut fields = Fields { rest: Some(line) };
    let Some(case) = fields.case() else {
        return Err(Refusal::LineMalformed);
    };
    match fields.rest {
        None => Ok(case),
        // a field too many (LINE-4)
        Some(_) => Err(Refusal::LineMalformed),
    }
}
