// The plain types of the store under one name, whatever crate holds them.
#![tactic(auto)]

pub use base_messages::actor::ActorId;
pub use base_messages::message::{Message, Post};
pub use base_types::answer::{Answer, Keys, Piece, Pieces};
pub use base_types::entry::{Entries, Entry, EntryState, Settle, Verdict};
pub use base_types::epoch::{Epoch, TargetId, Targets};
pub use base_types::fault::{ScriptFault, Why, WordFault, WordKind};
pub use base_types::hash::fnv1a;
pub use base_types::id::{AttemptId, Class, ContId, ObjId};
pub use base_types::items::{Items, Memory, TryCopy, Vec8, bytes_of};
pub use base_types::job::{Job, Task};
pub use base_types::key::{Key, KeyNo};
pub use base_types::operation::{Act, Cond, MinorWrite, MinorWrites, Op, Ops, Read, Write};
pub use base_types::outcome::{Cause, FloorWhy, Outcome};
pub use base_types::path::{Level, Path};
pub use base_types::report::{Attempt, Conds, Gots, Line, Lines, Report};
pub use base_types::script::{
    ClientLists, Command, Commands, ContDecl, Conts, Drops, ObjDecl, Objs, OldDecl, Olds, Script,
    Skips, StopDecl, Stops,
};
pub use base_types::shown::Shown;
pub use base_types::snapshot::{Snap, Snaps};
