// What a store keeps, in memory: every change of it, and every answer, without stops.
#![tactic(auto)]

pub mod answers;
pub mod changes;
pub mod client_tables;
pub mod contents;
pub mod found;
pub mod keyed;
pub mod objects;
pub mod rows;
pub mod sweeps;
pub mod tables;
