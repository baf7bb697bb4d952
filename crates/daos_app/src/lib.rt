// The program over the outside as traits: its words, its script and its report.
#![tactic(auto)]

pub mod daos;

pub use daos::run_daos;
pub use daos_run::parts::Parts;
pub use daos_run::run::run_script;
pub use daos_run::run_on::run_on;
pub use daos_run::stop::{Part, RunStop};
pub use daos_status::status;
pub use daos_status::status::{Status, status_text};

pub mod input;
pub mod load;
mod output;
mod runs;
mod text;
pub mod words;
