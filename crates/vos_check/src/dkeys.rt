// Dkeys.
use crate::akeys::Akeys;
use crate::codec::{is_name_length, name_in, roots_in};
use crate::logs::Logs;
use crate::node::NodeRow;
use pmem_pages::node::{TreeKey, Value};
use vos_check_base::fresh::Fresh;
use vos_check_base::ground::Ground;
use vos_check_base::refusal::CheckNo;
use vos_check_base::source::Source;
use vos_check_trees::level::Level;
use vos_check_trees::tree::tree;
use vos_values::values::Roots;

/// The trees of dkeys, under an object's record size.
#[derive(Clone, Copy)]
pub struct Dkeys {
    pub ground: Ground,
    pub unit: u8,
}

impl Level for Dkeys {
    ghost use Rattle.std.specs.Prelude.{ℕ, List, map};
    ghost use Rattle.pmem_pages.specs.Node.{key_text};
    ghost use Rattle.vos_image.specs.vos_path.Objects.{Dkey};
    ghost use Rattle.vos_image.specs.Kinds.{dkeys};
    ghost use Rattle.vos_image.specs.Nodes.{dkey_nodes};
    ghost use Rattle.vos_check.specs.Rows.{row_of};

    type Name = TreeKey;

    type Value = Roots;

    type Row = NodeRow;

    ghost Names = { List ℕ };

    ghost Things = { Dkey };

    ghost named = { key_text };

    ghost basis = { λ s. s.ground };

    ghost reads = { λ s. dkeys s.unit };

    ghost rows = { λ b a. map row_of (dkey_nodes a) };

    fn number(&self) -> u8 {
        2
    }

    fn is_length(&self, length: u16) -> bool {
        is_name_length(length)
    }

    fn name(&self, block: u32, key: &TreeKey) -> Result<TreeKey, u64> {
        name_in(block, key)
    }

    fn value(
        &self,
        fresh: &mut Fresh,
        block: u32,
        _name: TreeKey,
        value: &Value,
    ) -> Result<Roots, u64> {
        roots_in(fresh, block, value)
    }

    fn thing<S: Source>(
        &self,
        source: &mut S,
        fresh: &mut Fresh,
        out: &mut Vec<NodeRow>,
        _block: u32,
        name: TreeKey,
        value: Roots,
    ) -> Result<(), CheckNo> {
        let logs = Logs {
            ground: self.ground,
        };
        tree(&logs, source, fresh, out, value.log)?;
        let akeys = Akeys {
            ground: self.ground,
            unit: self.unit,
        };
        tree(&akeys, source, fresh, out, value.below)?;
        Ok(())
    }
}
