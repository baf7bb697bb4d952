// What the actors of a run show of a world in which targets may stop, and what turns lead to.

ghost use Rattle.run_laws.specs.shows.Laws.{ReachedIsSwept};

/// Says that in a world that a run has reached nothing goes to a target that was given up.
pub fn laws_of_reached_worlds()
    ensures swept { ReachedIsSwept }
{}
