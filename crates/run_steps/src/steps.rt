// What turns of actors lead to from their beginning.

ghost use Rattle.std.specs.Prelude.{◌≡◌, ◌≤◌, ℕ, Bool, List, [], Some, length, slice_get, true};
ghost use Rattle.daos_model.specs.declared.durable.Durable.{Durable};
ghost use Rattle.daos_model.specs.Opening.{Opening};
ghost use Rattle.run_laws.specs.shows.Beginning.{RunBegins};
ghost use Rattle.run_laws.specs.shows.Broken.{MayBeFoundOf};
ghost use Rattle.run_laws.specs.shows.CanGo.{CanGo, CanTurn};
ghost use Rattle.run_laws.specs.shows.Due.{AllAreDue};
ghost use Rattle.run_laws.specs.shows.Shows.{Shows};
ghost use Rattle.run_laws.specs.shows.Stages.{AreFound, StageNow};
ghost use Rattle.run_laws.specs.shows.Steps.{ClientTurned, TargetBroke, TargetTurned};
ghost use Rattle.run_laws.specs.turns.Drawn.{AreDrawn};
ghost use Rattle.run_steps.specs.Froms.{HasComeTo, HasEndedFrom, IsFrom, KeepsGoing};
ghost use Rattle.run_laws.specs.target_core.Targets.{TargetOf};
ghost use Rattle.world_base.specs.declared.world.World.{World};
ghost use Rattle.world_base.specs.Events.{Rules};

use base_outside::clock::Clock;
use vos_store::store::Store;

/// Says of actors which run they are of, from a beginning that the caller names: its rules, its opening and its
/// first world. Whoever gives actors whole turns, one after another, in an order of his own, can hold this (`IsFrom`)
/// as an invariant over his own beginning. It is so before the first turn, where the actors show the first world; and
/// each whole turn of a client or of a target keeps it, by what `Stage::client_turn` and `Stage::target_turn` of
/// `run_stage` say of a turn, whatever turns came before. Turns that overlap, as those of threads do, aren't such: a
/// whole turn finds the letters, the lines and the numbers that it leaves. So at any moment between turns a run of events from the first world has reached
/// one that the actors show, whatever stores of targets that don't run would be found with; and there is something
/// that they would be found with. Where no actor has anything to do in the settling phase, that run has ended.
pub fn laws_of_steps<S: Store, C: Clock>()
    ensures begin { (r : Rules) (o : Opening) (first : World) (a : StageNow S C) → RunBegins r o first → AreDrawn first
        → ((found : ℕ → Durable) → Shows S.durable S.state r found a first) → IsFrom S.durable S.state S.may r o first a }
    ensures clients { (r : Rules) (o : Opening) (first : World) (n number : ℕ) (a b : StageNow S C) → CanGo S.durable S.state S.may a
        → ClientTurned n number a b → IsFrom S.durable S.state S.may r o first a → IsFrom S.durable S.state S.may r o first b }
    ensures targets { (r : Rules) (o : Opening) (first : World) (settling : Bool) (t number : ℕ) (a b : StageNow S C) → CanGo S.durable S.state S.may a
        → TargetTurned S.durable S.state S.may C.is_read C.next settling t number a b → IsFrom S.durable S.state S.may r o first a → IsFrom S.durable S.state S.may r o first b }
    ensures found { (r : Rules) (o : Opening) (first : World) (a : StageNow S C) → IsFrom S.durable S.state S.may r o first a
        → (found : ℕ → Durable) × AreFound S.may a found }
    ensures ended { (r : Rules) (o : Opening) (first : World) (a : StageNow S C) → IsFrom S.durable S.state S.may r o first a → AllAreDue S.durable S.state true a []
        → (found : ℕ → Durable) → AreFound S.may a found → HasEndedFrom S.durable S.state S.may r first found a }
{}

/// Says what such a run has come to where memory is wanting: between turns, as also where a client's turn fails,
/// which leaves the targets as they were, or in a target's turn, by what `Stage::target_turn` says of the targets that
/// it leaves then. Whatever the next openings find of their stores, a run from the caller's first world has come to
/// one of as many targets, which keep that.
pub fn laws_of_breaks<S: Store, C: Clock>()
    ensures between { (r : Rules) (o : Opening) (first : World) (a : StageNow S C) → IsFrom S.durable S.state S.may r o first a
        → (found : ℕ → Durable) → MayBeFoundOf S.durable S.state S.may a.targets found → HasComeTo r first (length a.targets) found }
    ensures broke { (r : Rules) (o : Opening) (first : World) (settling : Bool) (t number : ℕ) (a : StageNow S C) (xs : List (TargetOf S C)) → CanGo S.durable S.state S.may a
        → TargetBroke S.durable S.state S.may C.is_read C.next settling t number a xs → IsFrom S.durable S.state S.may r o first a
        → (found : ℕ → Durable) → MayBeFoundOf S.durable S.state S.may xs found → HasComeTo r first (length xs) found }
{}

/// Says of actors that can go (`CanGo`), whatever their stores tell, that each target can have its turn, whichever
/// letter it hears in that; that there are few targets; and that after a whole turn of a client or of a target they
/// can go again. As many clients are there then; stores and clocks are those from before, after some calls; it is
/// still accounted for how often targets stopped; and lines still tell of commands in turn, of answers that fit, and
/// of attempts that end well.
pub fn laws_of_going<S: Store, C: Clock>()
    ensures ready { (t number : ℕ) (a : StageNow S C) (x : TargetOf S C) → CanGo S.durable S.state S.may a → slice_get a.targets t ≡ Some x
        → CanTurn S.durable S.state S.may a t number x }
    ensures few { (a : StageNow S C) → CanGo S.durable S.state S.may a → length a.targets ≤ 64 }
    ensures clients { (n number : ℕ) (a b : StageNow S C) → CanGo S.durable S.state S.may a
        → ClientTurned n number a b → KeepsGoing S.durable S.state S.may C.is_read a b }
    ensures targets { (settling : Bool) (t number : ℕ) (a b : StageNow S C) → CanGo S.durable S.state S.may a
        → TargetTurned S.durable S.state S.may C.is_read C.next settling t number a b → KeepsGoing S.durable S.state S.may C.is_read a b }
{}
