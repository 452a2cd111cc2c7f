//! Laws of the numbers that logs spell. A function is its contract.

ghost use Rattle.snl_logs.specs.Examples.{PlaceExamples};

/// What some digits are worth once their point is moved.
pub fn examples_of_places()
    ensures { PlaceExamples }
{}
