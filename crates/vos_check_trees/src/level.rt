// How trees of a kind are checked.
ghost use Rattle.std.specs.Prelude.{◌≡◌, ◌≤◌, ◌+◌, ◌*◌, ◌++◌, ℕ, List, Option, IsTrue};
ghost use Rattle.vos_check_base.specs.vos_image.Trees.{Kind};
ghost use Rattle.vos_check_base.specs.declared.ground.Ground.{Ground as GroundOf};
ghost use Rattle.vos_check_base.specs.Answers.{Does, Leads, Plainly, content, same};
ghost use Rattle.vos_check_base.specs.Sets.{open_of};
ghost use Rattle.base_outside.specs.Images.{Image};
ghost use Rattle.vos_check_base.specs.Health.{IsRead, says_stopped};

use pmem_pages::node::{Links, TreeKey, Value};
use vos_check_base::fresh::Fresh;
use vos_check_base::refusal::CheckNo;
use vos_check_base::source::Source;

/// How trees of a kind are checked: what their keys and values say, and what these lead to. What is found
/// there is gathered as rows.
pub trait Level {
    /// What a key says.
    type Name: Copy;

    /// What a value says.
    type Value: Copy;

    /// What is gathered of a thing.
    type Row;

    /// What the reading has for a key.
    ghost Names: { Type 0 };

    /// What the reading has in the blocks that a value leads to.
    ghost Things: { Type 0 };

    ghost named: { Self.Name → Names };

    /// What the image says of itself.
    ghost basis: { Self → GroundOf };

    /// How trees of this kind are read.
    ghost reads: { Self → Kind Names Self.Value Things };

    /// What is gathered of a thing whose node stands in a block.
    ghost rows: { ℕ → Things → List Self.Row };

    /// The number of the kind.
    fn number(&self) -> u8
        ensures { result ≡ (reads self.now).kind };

    /// Whether keys may have so many bytes.
    fn is_length(&self, length: u16) -> bool
        ensures { (f : Image) → result ≡ (reads self.now).is_length (content (basis self.now) f) length };

    /// What the key of the node in a block says.
    ///
    /// # Errors
    ///
    /// It gives the place of the byte at fault.
    fn name(&self, block: u32, key: &TreeKey) -> Result<Self::Name, u64>
        requires { key.now.len ≤ 64 }
        ensures { Plainly (basis self.now) (λ c. (reads self.now).name c (256 * block + 12) key.now) named result };

    /// What the value of the node in a block says. The fields in it lead to blocks.
    ///
    /// # Errors
    ///
    /// It gives the place of the byte at fault.
    fn value(
        &self,
        fresh: &mut Fresh,
        block: u32,
        name: Self::Name,
        value: &Value,
    ) -> Result<Self::Value, u64>
        ensures { Leads (basis self.now) (λ c. (reads self.now).value c (256 * block + 76) (named name) value.now)
            (open_of fresh.old) (open_of fresh.new) same result };

    /// Checks what the value of the node in a block leads to, and gathers it.
    ///
    /// # Errors
    ///
    /// It gives the byte at fault, or says that a read failed or that memory is wanting.
    fn thing<S: Source>(
        &self,
        source: &mut S,
        fresh: &mut Fresh,
        out: &mut Vec<Self::Row>,
        block: u32,
        name: Self::Name,
        value: Self::Value,
    ) -> Result<(), CheckNo>
        ensures read { IsTrue S.tells → Does (basis self.now) (S.bytes source.old) (λ c. (reads self.now).thing c (named name) value)
            (open_of fresh.old) (open_of fresh.new) (λ _ a. out.new.items ≡ out.old.items ++ rows block a) result }
        ensures kept { IsTrue S.tells → S.bytes source.new ≡ S.bytes source.old }
        ensures stops { IsRead S.health S.looked source.old source.new (says_stopped result) };
}

/// The keys between which the keys of a tree lie, where there are such.
#[derive(Clone, Copy)]
pub struct Bounds {
    pub low: Option<TreeKey>,
    pub high: Option<TreeKey>,
}

/// What was found of a node: its links and its key, and what the key and the value say.
#[derive(Clone, Copy)]
pub struct Found<N, V> {
    pub links: Links,
    pub key: TreeKey,
    pub name: N,
    pub value: V,
}
