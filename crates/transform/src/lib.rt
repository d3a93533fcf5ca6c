// The distance transform as mathematics: what a picture's settled image is, and the theorems that the orders come to it.
#![tactic(auto)]

ghost use Rattle.transform.specs.Examples.{Worked};
ghost use Rattle.transform.specs.Raster.{ScansSettle};
ghost use Rattle.transform.specs.Free.{StableSettles};
ghost use Rattle.transform.specs.Parallel.{RoundsLookAtRings, IdleStaysIdle, FirstIdleComes, FirstIdleSettles};
ghost use Rattle.transform.specs.Directional.{SweepsStayIdle, PhaseEnds, PhasesReach, ColumnsThenRows, PhasesSettle};

// The parallel order comes to the settled image, for every lawful metric.
pub fn parallel_settles()
    ensures rings { RoundsLookAtRings }
    ensures stays { IdleStaysIdle }
    ensures comes { FirstIdleComes }
    ensures settles { FirstIdleSettles }
{}

// The directional order comes to the settled image, for every lawful metric that splits.
pub fn directional_settles()
    ensures stays { SweepsStayIdle }
    ensures ends { PhaseEnds }
    ensures reaches { PhasesReach }
    ensures splits { ColumnsThenRows }
    ensures settles { PhasesSettle }
{}

// The raster order comes to the settled image, for every lawful steady metric.
pub fn raster_settles()
    ensures { ScansSettle }
{}

// What the free order comes to, whatever the sequence, is the settled image, for every lawful steady metric.
pub fn stable_settles()
    ensures { StableSettles }
{}

// The worked examples hold.
pub fn worked_examples()
    ensures { Worked }
{}
