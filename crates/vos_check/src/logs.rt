// Logs.
use crate::codec::{mark_in, moment_in};
use crate::node::NodeRow;
use pmem_pages::node::{TreeKey, Value};
use vos_check_base::fresh::Fresh;
use vos_check_base::ground::Ground;
use vos_check_base::refusal::CheckNo;
use vos_check_base::source::Source;
use vos_check_trees::level::Level;
use vos_values::keys::Moment;
use vos_values::values::LogMark;

/// The trees of log entries.
#[derive(Clone, Copy)]
pub struct Logs {
    pub ground: Ground,
}

impl Level for Logs {
    ghost use Rattle.std.specs.Prelude.{[], ◌∷◌};
    ghost use Rattle.vos_values.specs.declared.keys.Moment.{Moment as MomentOf};
    ghost use Rattle.vos_ilog.specs.declared.ilog.LogEntry.{LogEntry as LogEntryOf};
    ghost use Rattle.vos_image.specs.Kinds.{logs};
    ghost use Rattle.vos_image.specs.Nodes.{log_node};
    ghost use Rattle.vos_check.specs.Rows.{row_of};

    type Name = Moment;

    type Value = LogMark;

    type Row = NodeRow;

    ghost Names = { MomentOf };

    ghost Things = { LogEntryOf };

    ghost named = { λ m. m };

    ghost basis = { λ s. s.ground };

    ghost reads = { λ s. logs };

    ghost rows = { λ b v. row_of (log_node b v) ∷ [] };

    fn number(&self) -> u8 {
        4
    }

    fn is_length(&self, length: u16) -> bool {
        length == 9
    }

    fn name(&self, block: u32, key: &TreeKey) -> Result<Moment, u64> {
        moment_in(&self.ground, block, key)
    }

    fn value(
        &self,
        _fresh: &mut Fresh,
        block: u32,
        name: Moment,
        value: &Value,
    ) -> Result<LogMark, u64> {
        mark_in(block, name, value)
    }

    fn thing<S: Source>(
        &self,
        _source: &mut S,
        _fresh: &mut Fresh,
        out: &mut Vec<NodeRow>,
        block: u32,
        name: Moment,
        value: LogMark,
    ) -> Result<(), CheckNo> {
        out.push(NodeRow {
            block,
            by: value.by,
            epoch: name.epoch,
        })?;
        Ok(())
    }
}
