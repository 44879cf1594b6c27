//! What is promised of the calls. Each function does nothing: its contract is the promise.

ghost use Rattle.refusals.specs.Facts.{Shown};
ghost use Rattle.marehour.specs.Boundary.{boundary_facts};
ghost use Rattle.marehour.specs.Laws.{RepliesWithinEnds, BufferTooShort, NoDemandIsRefused, LastRefusalIsReached};
ghost use Rattle.marehour.specs.Laws.{AnswerHandsBack, LanesHandBack, LetterOutsideIsRefused, DailyHandsBack, ForecastHandsBack};
ghost use Rattle.marehour.specs.Laws.{DayHandsBack, DayCallIsTheDay, PositionIsTheLinesAnswer};
ghost use Rattle.marehour.specs.Shape.{NoBetterLetterWritten, MeetsUpToTheWrittenVolume, LanesDigitIsTheLeastCount, PrintedLineMeetsUpTo2642};
ghost use Rattle.marehour.specs.Tries.{TriesHandBack, TriesOfLines};

/// SHAPE-4: over lines and lent buffers. Of two lines of accepted cases, of the same road under one weather,
/// lanes being comparable, the one with no less load is not answered with the better letter. A line whose
/// demand is another meets a letter exactly up to the service volume that the first line's answer has. The
/// lanes question writes the digit of the least accepted count that meets the letter, and is refused with 14
/// exactly where none does.
pub fn shape_of_the_calls()
    ensures letter { NoBetterLetterWritten }
    ensures volume { MeetsUpToTheWrittenVolume }
    ensures lanes { LanesDigitIsTheLeastCount }
    ensures instance { PrintedLineMeetsUpTo2642 }
{}

/// CALL-1 to CALL-5, CALL-8, CALL-9, REFUSAL-16: what each call over a line hands back and writes: minus 17
/// where too little is lent, else minus 15 where the line is malformed, else minus the number of its case's
/// refusal; else the count of what stands from the start on. Behind it, and at a refusal everywhere, what
/// stood there stays. A letter number outside 1 to 5 is refused with 16 before the case is looked at.
pub fn calls_hand_back()
    ensures answer { AnswerHandsBack }
    ensures lanes { LanesHandBack }
    ensures letter { LetterOutsideIsRefused }
    ensures daily { DailyHandsBack }
    ensures forecast { ForecastHandsBack }
{}

/// CALL-7, DAY-1: a day's call hands back minus 18 where the lent memory does not fit, else minus 15 where
/// the line is malformed, else the count of its demands. It is the day of the line's case, and a position
/// holds what a line with that demand is answered.
pub fn day_hands_back()
    ensures result { DayHandsBack }
    ensures day { DayCallIsTheDay }
    ensures position { PositionIsTheLinesAnswer }
{}

/// CALL-3, REFUSAL-17 to REFUSAL-19, REFUSAL-21, REFUSAL-22: every call over a line that writes hands
/// back what is within its ends, never 0, and the greatest refusals are reached.
pub fn replies_are_within_their_ends()
    ensures ends { RepliesWithinEnds }
    ensures short { BufferTooShort }
    ensures no_demand { NoDemandIsRefused }
    ensures last { LastRefusalIsReached }
{}

/// CALL-10, TRIES-3: the count of the tried demands is from 1 to 80, or minus the refusal of the line or its
/// case. The printed line has 67.
pub fn tries_hand_back()
    ensures result { TriesHandBack }
    ensures printed { TriesOfLines }
{}

/// FIGURE-1: each fact of the lists is what is worked out, printed or handed back for it.
pub fn boundary_sections()
    ensures { Shown boundary_facts }
{}
