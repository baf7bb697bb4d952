// Objects.
use crate::codec::{object_in, roots_in};
use crate::dkeys::Dkeys;
use crate::logs::Logs;
use crate::node::NodeRow;
use pmem_pages::node::{TreeKey, Value};
use vos_check_base::fresh::Fresh;
use vos_check_base::ground::Ground;
use vos_check_base::refusal::CheckNo;
use vos_check_base::source::Source;
use vos_check_trees::level::Level;
use vos_check_trees::tree::tree;
use vos_values::keys::ObjectKey;
use vos_values::values::Roots;

/// The trees of objects.
#[derive(Clone, Copy)]
pub struct Objects {
    pub ground: Ground,
}

impl Level for Objects {
    ghost use Rattle.std.specs.Prelude.{map};
    ghost use Rattle.vos_values.specs.declared.keys.ObjectKey.{ObjectKey as NameOf};
    ghost use Rattle.vos_image.specs.vos_path.Objects.{Object};
    ghost use Rattle.vos_image.specs.Kinds.{objects};
    ghost use Rattle.vos_image.specs.Nodes.{object_nodes};
    ghost use Rattle.vos_check.specs.Rows.{row_of};

    type Name = ObjectKey;

    type Value = Roots;

    type Row = NodeRow;

    ghost Names = { NameOf };

    ghost Things = { Object };

    ghost named = { λ m. m };

    ghost basis = { λ s. s.ground };

    ghost reads = { λ s. objects };

    ghost rows = { λ b a. map row_of (object_nodes a) };

    fn number(&self) -> u8 {
        1
    }

    fn is_length(&self, length: u16) -> bool {
        length == 25 || (self.ground.layout.has_sizes() && length == 26)
    }

    fn name(&self, block: u32, key: &TreeKey) -> Result<ObjectKey, u64> {
        object_in(&self.ground, block, key)
    }

    fn value(
        &self,
        fresh: &mut Fresh,
        block: u32,
        _name: ObjectKey,
        value: &Value,
    ) -> Result<Roots, u64> {
        roots_in(fresh, block, value)
    }

    fn thing<S: Source>(
        &self,
        source: &mut S,
        fresh: &mut Fresh,
        out: &mut Vec<NodeRow>,
        _block: u32,
        name: ObjectKey,
        value: Roots,
    ) -> Result<(), CheckNo> {
        let logs = Logs {
            ground: self.ground,
        };
        tree(&logs, source, fresh, out, value.log)?;
        let dkeys = Dkeys {
            ground: self.ground,
            unit: name.obj.unit,
        };
        tree(&dkeys, source, fresh, out, value.below)?;
        Ok(())
    }
}
