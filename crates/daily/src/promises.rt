//! What is promised of daily volumes: each function does nothing, and its contract is a theorem.

ghost use Rattle.refusals.specs.Facts.{Shown};
ghost use Rattle.daily.specs.Promises.{MeetsUpToTheDailyVolume, NoBetterWithMoreTraffic, FiguresOfTheHour};
ghost use Rattle.daily.specs.Promises.{RoundedUpOnce, OwnDemandIsNotRead, RefusedInOrder, RefusedExactly};
ghost use Rattle.daily.specs.Instances.{NoTrafficMeetsA, hourly_instances, refusal_instances, daily_instances};

/// DAILY-4, DAILY-5: a daily traffic meets a letter exactly when it is at most the letter's daily service
/// volume, whatever traffic was answered for; more traffic or a larger share never gets a better letter.
pub fn daily_volumes()
    ensures meets_up_to_the_daily_volume { MeetsUpToTheDailyVolume }
    ensures no_better_with_more_traffic { NoBetterWithMoreTraffic }
{}

/// DAILY-1 to DAILY-3: the figures are those of the case with the hourly demand, rounded up once, and its
/// service volumes once more by the day; the demand that the case carries is not read.
pub fn figures_of_the_hour()
    ensures figures_of_the_hour { FiguresOfTheHour }
    ensures rounded_up_once { RoundedUpOnce }
    ensures own_demand_is_not_read { OwnDemandIsNotRead }
{}

/// DAILY-6: 20 refuses exactly shares out of range, 21 exactly too great a daily traffic, and then the case
/// with the hourly demand is refused as ever.
pub fn refusals_in_order()
    ensures refused_in_order { RefusedInOrder }
    ensures refused_exactly { RefusedExactly }
{}

/// DAILY-1 to DAILY-6: daily traffics that meet every hypothesis above, with what is worked out of them.
pub fn instances()
    ensures no_traffic_meets_a { NoTrafficMeetsA }
    ensures hourly_demands { Shown hourly_instances }
    ensures refusals { Shown refusal_instances }
    ensures answers { Shown daily_instances }
{}
