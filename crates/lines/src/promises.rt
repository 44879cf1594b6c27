//! What is promised of lines. Each function does nothing: its contract is the promise.

ghost use Rattle.refusals.specs.Facts.{Shown};
ghost use Rattle.lines.specs.Boundary.{line_facts};
ghost use Rattle.lines.specs.Laws.{LengthNeverDecidesAlone, WellFormedLinesAreShort, LongestIsRead, ClearWeatherMayBeLeftOut};
ghost use Rattle.lines.specs.Laws.{OtherCountsAreMalformed, ValuesAreTheFields, RefusalHasItsNumber, DemandOnALine};
ghost use Rattle.lines.specs.Laws.{TenthFieldIsTheDemand, FiveDigitsReadAsBefore, OlderReaderRefusesMore};

/// LINE-6, LINE-4, REFUSAL-15: what is read is what the fields say: the values of a line's case are those of
/// its fields, in their order. A line of 13 fields reads as the same line with 1000 and 1000, and any count
/// other than 13 and 15 is malformed. A refused line has no values.
pub fn lines_are_their_fields()
    ensures values { ValuesAreTheFields }
    ensures clear_weather { ClearWeatherMayBeLeftOut }
    ensures other_counts { OtherCountsAreMalformed }
    ensures refusal { RefusalHasItsNumber }
{}

/// LINE-5: no line of more than 74 bytes is read, and one of 74 is; so that no line is refused for its length
/// alone.
pub fn lines_are_short()
    ensures short { WellFormedLinesAreShort }
    ensures longest { LongestIsRead }
    ensures length { LengthNeverDecidesAlone }
{}

/// LINE-6, LINE-2, LINE-7: the tenth field is the demand: with other digits there a line reads as its case
/// with that demand. No line's demand is above the greatest, 999,999. Where at most five bytes stand there a
/// line reads as by an older reader, who refuses more with 15.
pub fn tenth_field_is_the_demand()
    ensures tenth_field { TenthFieldIsTheDemand }
    ensures greatest { DemandOnALine }
    ensures five_digits { FiveDigitsReadAsBefore }
    ensures six_digits { OlderReaderRefusesMore }
{}

/// LINE-1 to LINE-7, FIGURE-1: what each line of a list is read as, or that it is refused.
pub fn boundary_lines()
    ensures { Shown line_facts }
{}
