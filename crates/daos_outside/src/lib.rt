// The outside of the store under one name: the traits that it asks for, and what meets them, whatever crate holds it.
#![tactic(auto)]

pub use base_outside::adapters::{Reading, Writing};
pub use base_outside::clock::Clock;
pub use base_outside::count_clock::CountClock;
pub use base_outside::gate::{FreeGate, Gate};
pub use base_outside::mem_sink::MemSink;
pub use base_outside::mem_source::MemSource;
pub use base_outside::rack::Rack;
pub use base_outside::region::{Fusible, Region};
pub use base_outside::sink::Sink;
pub use base_outside::source::Source;
pub use base_outside::sure_rack::SureRack;
pub use base_outside::sure_region::SureRegion;
pub use base_outside::sure_sink::SureSink;
pub use base_outside::sure_source::SureSource;
pub use base_outside::{Failed, TargetId};
pub use daos_files::file_rack::FileRack;
pub use daos_files::file_region::FileRegion;
pub use daos_regions::fused::Fused;
pub use daos_regions::keep::Keep;
pub use daos_regions::mem_rack::MemRack;
pub use daos_regions::mem_region::MemRegion;
