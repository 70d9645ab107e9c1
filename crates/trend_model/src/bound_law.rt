// The bound, as a law.
ghost use Rattle.std.specs.Prelude.{List};
ghost use Rattle.trend_model.specs.History.{Event, Origin};
ghost use Rattle.trend_model.specs.Bound.{IsBounded};

/// The promise of the archive, for every tag of lines or steps and every history of values and retunings:
///
/// - On each clean span the line or the stair is within CompDev of every value sent in order.
/// - On each clean span a line is within CompDev plus twice ExcDev of every raw value in order. A stair is within
///   CompDev plus ExcDev.
/// - Every raw value in order after the held point is within ExcDev of it.
/// - At a time with late values a read is exact, with the value of the last one.
///
/// The tuning of a span is the one that was in force when its right end came. After the held point it is the tuning in
/// force.
pub fn bound()
    ensures { (o : Origin) (h : List Event) → IsBounded o h }
{}
