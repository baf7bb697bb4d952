// Extents of arrays.
use crate::chain::chain;
use crate::codec::{extent_in, first_in, fits_records, version_in};
use crate::node::NodeRow;
use pmem_pages::node::{TreeKey, Value};
use vos_check_base::fresh::Fresh;
use vos_check_base::ground::Ground;
use vos_check_base::refusal::CheckNo;
use vos_check_base::source::Source;
use vos_check_trees::level::Level;
use vos_values::keys::ExtentKey;
use vos_values::values::VersionMark;

/// The trees of extents of an object's record size.
#[derive(Clone, Copy)]
pub struct Extents {
    pub ground: Ground,
    pub unit: u8,
}

impl Level for Extents {
    ghost use Rattle.std.specs.Prelude.{[], ◌∷◌};
    ghost use Rattle.vos_values.specs.declared.keys.ExtentKey.{ExtentKey as NameOf};
    ghost use Rattle.vos_image.specs.vos_extent.Extents.{Stored};
    ghost use Rattle.vos_image.specs.Kinds.{extents};
    ghost use Rattle.vos_image.specs.Nodes.{extent_node};
    ghost use Rattle.vos_check.specs.Rows.{row_of};

    type Name = ExtentKey;

    type Value = VersionMark;

    type Row = NodeRow;

    ghost Names = { NameOf };

    ghost Things = { Stored };

    ghost named = { λ m. m };

    ghost basis = { λ s. s.ground };

    ghost reads = { λ s. extents s.unit };

    ghost rows = { λ b v. row_of (extent_node b v) ∷ [] };

    fn number(&self) -> u8 {
        6
    }

    fn is_length(&self, length: u16) -> bool {
        length == 13
    }

    fn name(&self, block: u32, key: &TreeKey) -> Result<ExtentKey, u64> {
        extent_in(&self.ground, block, key)
    }

    fn value(
        &self,
        fresh: &mut Fresh,
        block: u32,
        name: ExtentKey,
        value: &Value,
    ) -> Result<VersionMark, u64> {
        let mark = version_in(block, value)?;
        first_in(
            fresh,
            block,
            fits_records(self.unit, name.low, mark.length),
            mark.chain,
        )?;
        Ok(mark)
    }

    fn thing<S: Source>(
        &self,
        source: &mut S,
        fresh: &mut Fresh,
        out: &mut Vec<NodeRow>,
        block: u32,
        name: ExtentKey,
        value: VersionMark,
    ) -> Result<(), CheckNo> {
        chain(source, fresh, value.chain, value.length)?;
        out.push(NodeRow {
            block,
            by: value.by,
            epoch: name.epoch,
        })?;
        Ok(())
    }
}
