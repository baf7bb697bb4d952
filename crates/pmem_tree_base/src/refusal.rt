// Why a call of a tree was refused.
use pmem_pages::refusal::{PageNo, Stopped, TooMuch};
use thiserror::Error;

/// Why a tree wasn't changed.
#[derive(Clone, Copy, Debug, Error)]
pub enum TreeNo {
    #[error("no block is free")]
    NoBlock,
    #[error("more than one commit takes")]
    TooMuch,
    #[error("stopped")]
    Stopped,
}

impl From<Stopped> for TreeNo {
    ghost use Rattle.std.specs.Prelude.{◌≡◌};
    ghost use Rattle.pmem_tree_base.specs.declared.refusal.TreeNo.TheVariants.{Stopped as stopped};

    ghost from_gives = { λ _ e. e ≡ stopped };

    fn from(_: Stopped) -> Self {
        TreeNo::Stopped
    }
}

impl From<TooMuch> for TreeNo {
    ghost use Rattle.std.specs.Prelude.{◌≡◌};
    ghost use Rattle.pmem_tree_base.specs.declared.refusal.TreeNo.TheVariants.{TooMuch as too_much};

    ghost from_gives = { λ _ e. e ≡ too_much };

    fn from(_: TooMuch) -> Self {
        TreeNo::TooMuch
    }
}

impl From<PageNo> for TreeNo {
    ghost use Rattle.std.specs.Prelude.{◌≡◌};
    ghost use Rattle.pmem_tree_base.specs.Calls.{tree_no};

    ghost from_gives = { λ no e. e ≡ tree_no no };

    fn from(no: PageNo) -> Self {
        match no {
            PageNo::NoBlock => TreeNo::NoBlock,
            PageNo::TooMuch => TreeNo::TooMuch,
        }
    }
}
