// What turns of actors lead to from their beginning, for whoever gives the actors their turns.
#![tactic(auto)]

pub mod steps;
