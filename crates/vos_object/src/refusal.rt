// Why the writes of some moments weren't settled or pruned.
use pmem_tree::TreeNo;
use thiserror::Error;
use vos_chain::refusal::PiecesNo;

/// Why the writes of some moments weren't settled or pruned: more than one commit takes, the pages stopped, or
/// memory is wanting for their names.
#[derive(Clone, Copy, Debug, Error)]
pub enum SettleNo {
    #[error("more than one commit takes")]
    TooMuch,
    #[error("stopped")]
    Stopped,
    #[error("out of memory")]
    Memory,
}

impl From<TreeNo> for SettleNo {
    ghost use Rattle.std.specs.Prelude.{◌≡◌};
    ghost use Rattle.vos_object.specs.Refusals.{of_tree};

    ghost from_gives = { λ no e. e ≡ of_tree no };

    fn from(no: TreeNo) -> Self {
        match no {
            TreeNo::NoBlock | TreeNo::TooMuch => SettleNo::TooMuch,
            TreeNo::Stopped => SettleNo::Stopped,
        }
    }
}

impl From<PiecesNo> for SettleNo {
    ghost use Rattle.std.specs.Prelude.{◌≡◌};
    ghost use Rattle.vos_object.specs.Refusals.{of_pieces};

    ghost from_gives = { λ no e. e ≡ of_pieces no };

    fn from(no: PiecesNo) -> Self {
        match no {
            PiecesNo::Stopped => SettleNo::Stopped,
            PiecesNo::Memory => SettleNo::Memory,
        }
    }
}
