// Versions of single values.
use crate::chain::chain;
use crate::codec::{first_in, moment_in, version_in};
use crate::node::NodeRow;
use pmem_pages::node::{TreeKey, Value};
use vos_check_base::fresh::Fresh;
use vos_check_base::ground::Ground;
use vos_check_base::refusal::CheckNo;
use vos_check_base::source::Source;
use vos_check_trees::level::Level;
use vos_values::keys::Moment;
use vos_values::values::VersionMark;

/// The trees of versions of single values.
#[derive(Clone, Copy)]
pub struct Singles {
    pub ground: Ground,
}

impl Level for Singles {
    ghost use Rattle.std.specs.Prelude.{[], ◌∷◌};
    ghost use Rattle.vos_values.specs.declared.keys.Moment.{Moment as NameOf};
    ghost use Rattle.vos_image.specs.vos_single.Singles.{Stored};
    ghost use Rattle.vos_image.specs.Kinds.{singles};
    ghost use Rattle.vos_image.specs.Nodes.{single_node};
    ghost use Rattle.vos_check.specs.Rows.{row_of};

    type Name = Moment;

    type Value = VersionMark;

    type Row = NodeRow;

    ghost Names = { NameOf };

    ghost Things = { Stored };

    ghost named = { λ m. m };

    ghost basis = { λ s. s.ground };

    ghost reads = { λ s. singles };

    ghost rows = { λ b v. row_of (single_node b v) ∷ [] };

    fn number(&self) -> u8 {
        5
    }

    fn is_length(&self, length: u16) -> bool {
        length == 9
    }

    fn name(&self, block: u32, key: &TreeKey) -> Result<Moment, u64> {
        moment_in(&self.ground, block, key)
    }

    fn value(
        &self,
        fresh: &mut Fresh,
        block: u32,
        _name: Moment,
        value: &Value,
    ) -> Result<VersionMark, u64> {
        let mark = version_in(block, value)?;
        first_in(fresh, block, true, mark.chain)?;
        Ok(mark)
    }

    fn thing<S: Source>(
        &self,
        source: &mut S,
        fresh: &mut Fresh,
        out: &mut Vec<NodeRow>,
        block: u32,
        name: Moment,
        value: VersionMark,
    ) -> Result<(), CheckNo> {
        chain(source, fresh, value.chain, value.length)?;
        out.push(NodeRow {
            block,
            by: value.by,
            epoch: name.epoch,
        })?;
        Ok(())
    }
}
