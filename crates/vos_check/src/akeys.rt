// Akeys.
use crate::codec::{akey_in, is_name_length, name_in};
use crate::extents::Extents;
use crate::logs::Logs;
use crate::node::NodeRow;
use crate::singles::Singles;
use pmem_pages::node::{TreeKey, Value};
use vos_check_base::fresh::Fresh;
use vos_check_base::ground::Ground;
use vos_check_base::refusal::CheckNo;
use vos_check_base::source::Source;
use vos_check_trees::level::Level;
use vos_check_trees::tree::tree;
use vos_values::values::AkeyRoots;

/// The trees of akeys, under an object's record size.
#[derive(Clone, Copy)]
pub struct Akeys {
    pub ground: Ground,
    pub unit: u8,
}

impl Level for Akeys {
    ghost use Rattle.std.specs.Prelude.{ℕ, List, map};
    ghost use Rattle.pmem_pages.specs.Node.{key_text};
    ghost use Rattle.vos_image.specs.vos_path.Objects.{Akey};
    ghost use Rattle.vos_image.specs.Kinds.{akeys};
    ghost use Rattle.vos_image.specs.Nodes.{akey_nodes};
    ghost use Rattle.vos_check.specs.Rows.{row_of};

    type Name = TreeKey;

    type Value = AkeyRoots;

    type Row = NodeRow;

    ghost Names = { List ℕ };

    ghost Things = { Akey };

    ghost named = { key_text };

    ghost basis = { λ s. s.ground };

    ghost reads = { λ s. akeys s.unit };

    ghost rows = { λ b a. map row_of (akey_nodes a) };

    fn number(&self) -> u8 {
        3
    }

    fn is_length(&self, length: u16) -> bool {
        is_name_length(length)
    }

    fn name(&self, block: u32, key: &TreeKey) -> Result<TreeKey, u64> {
        name_in(block, key)
    }

    fn value(
        &self,
        fresh: &mut Fresh,
        block: u32,
        _name: TreeKey,
        value: &Value,
    ) -> Result<AkeyRoots, u64> {
        akey_in(fresh, block, value)
    }

    fn thing<S: Source>(
        &self,
        source: &mut S,
        fresh: &mut Fresh,
        out: &mut Vec<NodeRow>,
        _block: u32,
        name: TreeKey,
        value: AkeyRoots,
    ) -> Result<(), CheckNo> {
        let logs = Logs {
            ground: self.ground,
        };
        tree(&logs, source, fresh, out, value.log)?;
        let singles = Singles {
            ground: self.ground,
        };
        tree(&singles, source, fresh, out, value.singles)?;
        let extents = Extents {
            ground: self.ground,
            unit: self.unit,
        };
        tree(&extents, source, fresh, out, value.extents)?;
        Ok(())
    }
}
