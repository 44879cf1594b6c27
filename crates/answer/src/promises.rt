//! What is promised of the answers: each function does nothing, and its contract is the promise.

ghost use Rattle.refusals.specs.Facts.{Shown};
ghost use Rattle.answer.specs.Boundary.{boundary_facts};
ghost use Rattle.answer.specs.Promises.{NoBetterUnderMoreLoad, NoBetterInClearWeather, MeetsUpToTheServiceVolume, LeastAcceptedCount, ShapeOfTheMethod};
ghost use Rattle.answer.specs.Instances.{NoBetterLetterUnderMoreLoad, NoBetterLetterUnderMoreDemand, NoBetterLetterOnAMultilane};
ghost use Rattle.answer.specs.Instances.{NoBetterLetterInSnowWithFewerLanes, NoBetterLetterInSnowOnAnEstimate, ServiceVolumeInSnow};
ghost use Rattle.answer.specs.Instances.{ServiceVolumeOfTheExample, FirstAndLastServiceVolume, FourLanesForEveryLetter};
ghost use Rattle.answer.specs.Instances.{NoLanesForTheGreatestDemand, ThreeLanesOnAMultilane, ThreeLanesInSnow};
ghost use Rattle.answer.specs.Laws.{FiguresWithinEnds, VolumesUpToAnyEnd, RefusalsWithinEnds, RefusalsReachEnds, LanesRefusalsInOrder};
ghost use Rattle.answer.specs.Laws.{LanesRefusedAsTheCase, NothingBut14RefusesFitFields, CountsAreDigits, RefusedByTheList};
ghost use Rattle.answer.specs.SearchOrder.{NoVolumeAboveTheNext, ExampleVolumesRise, TriesOfALetter, AtMost80Tried, ExampleTried};
ghost use Rattle.answer.specs.SearchOrder.{EightLanesTried, RefusedTried};

/// SHAPE-1 to SHAPE-3: the shape of the method, its three parts in one statement.
pub fn shape_of_the_method()
    ensures { ShapeOfTheMethod }
{}

/// SHAPE-1: of two accepted cases of one road under one weather, the one with no less load never gets the
/// better letter.
pub fn no_better_under_more_load()
    ensures part { NoBetterUnderMoreLoad }
    ensures in_clear_weather { NoBetterInClearWeather }
    ensures more_load { NoBetterLetterUnderMoreLoad }
    ensures more_demand { NoBetterLetterUnderMoreDemand }
    ensures multilane { NoBetterLetterOnAMultilane }
    ensures fewer_lanes_in_snow { NoBetterLetterInSnowWithFewerLanes }
    ensures estimate_in_snow { NoBetterLetterInSnowOnAnEstimate }
{}

/// SHAPE-2: a demand meets a letter exactly when it is at most the service volume.
pub fn meets_up_to_the_service_volume()
    ensures part { MeetsUpToTheServiceVolume }
    ensures example { ServiceVolumeOfTheExample }
    ensures first_and_last { FirstAndLastServiceVolume }
    ensures in_snow { ServiceVolumeInSnow }
{}

/// SHAPE-3: the lanes question answers the least accepted lane count that meets the letter, or 14 where none
/// does.
pub fn least_accepted_count()
    ensures part { LeastAcceptedCount }
    ensures four_lanes { FourLanesForEveryLetter }
    ensures no_lanes { NoLanesForTheGreatestDemand }
    ensures multilane { ThreeLanesOnAMultilane }
    ensures in_snow { ThreeLanesInSnow }
{}

/// ANSWER-2, ORDER-2, LANES-3: how large the figures of an answer, a lane count and the number of a refusal
/// can be.
pub fn ends()
    ensures figures { FiguresWithinEnds }
    ensures volumes { VolumesUpToAnyEnd }
    ensures counts { CountsAreDigits }
    ensures refusals { RefusalsWithinEnds }
    ensures reached { RefusalsReachEnds }
{}

/// ORDER-2: a case is refused by the first of 1 to 9, 19 and 10 that it breaks, and answered where it breaks
/// none.
pub fn refused_by_the_list()
    ensures { RefusedByTheList }
{}

/// LANES-3: what refuses the lanes question, and in which order.
pub fn lanes_refusals()
    ensures in_order { LanesRefusalsInOrder }
    ensures as_the_case { LanesRefusedAsTheCase }
    ensures fit_fields { NothingBut14RefusesFitFields }
{}

/// TRIES-1 to TRIES-3: which demands are tried for the service volumes, and how many: at most 80.
pub fn tries()
    ensures order { NoVolumeAboveTheNext }
    ensures each_letter { TriesOfALetter }
    ensures all { AtMost80Tried }
    ensures example_order { ExampleVolumesRise }
    ensures example { ExampleTried }
    ensures eight_lanes { EightLanesTried }
    ensures refused { RefusedTried }
{}

/// FIGURE-1: each boundary section gets what is listed for it.
pub fn boundary_sections()
    ensures { Shown boundary_facts }
{}
