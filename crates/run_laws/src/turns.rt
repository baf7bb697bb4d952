// Turns of actors, and the order in which they have them, where targets may stop and open again.

ghost use Rattle.run_laws.specs.turns.Numbers.{AllToldAreCounted, OrdersTellAll, TurnsTellAll};
ghost use Rattle.run_laws.specs.turns.OrderLaws.{OrdersAreRuns, OrdersEndQuiet, OrdersHaveEnded, TurnsHear};
ghost use Rattle.run_laws.specs.turns.Raising.{TurnsRaise};
ghost use Rattle.run_laws.specs.turns.Staying.{EventsStay, OrdersStay, TurnsStay};
ghost use Rattle.run_laws.specs.turns.StopLines.{TurnsTellStops};

/// Says that a run in an order is a run of events. It ends where no actor has anything to do, so it has
/// ended then. In a turn of an actor that isn't stopped the number of the letter heard is below how many
/// the actor hears one of.
pub fn laws_of_orders()
    ensures runs { OrdersAreRuns }
    ensures quiet { OrdersEndQuiet }
    ensures ended { OrdersHaveEnded }
    ensures hear { TurnsHear }
{}

/// Says that as many clients and targets are there after an event, a turn, or a run in an order as before, and
/// that a target which was given up still is.
pub fn laws_of_actors()
    ensures events { EventsStay }
    ensures turns { TurnsStay }
    ensures orders { OrdersStay }
{}

/// Says that turns count restarts and aggregations: each number of a restart that was drawn has its line, and
/// the lines have the numbers in order; and so have those of aggregations. So it is for a run in an order from
/// a world with no lines.
pub fn laws_of_numbers()
    ensures turns { TurnsTellAll }
    ensures orders { OrdersTellAll }
    ensures counted { AllToldAreCounted }
{}

/// Says that a turn adds one line of a stop where it is cut, of its own target, and none else; and one of a
/// target given up where its target is given up in it, and none else.
pub fn laws_of_stops()
    ensures tell { TurnsTellStops }
{}

/// Says that a turn raises no target's incarnation, but for one in which a target opens again, or fails to,
/// which raises it by one at most.
pub fn laws_of_openings()
    ensures raise { TurnsRaise }
{}
