// Why a pool isn't made tidy.
use thiserror::Error;
use vos_pool_unlist::refusal::UnlistNo;
use vos_store::refusal::Stopped;

/// Why a pool isn't made tidy. A list that is too long for one commit, and more unsettled versions of one attempt than
/// one commit can settle, count as want of memory.
#[derive(Clone, Copy, Debug, Error)]
pub enum TidyNo {
    #[error("stopped")]
    Stopped,
    #[error("out of memory")]
    Memory,
}

impl From<UnlistNo> for TidyNo {
    ghost use Rattle.std.specs.Prelude.{◌≡◌};
    ghost use Rattle.vos_pool_tidy.specs.Answers.{tidy_no};

    ghost from_gives = { λ no e. e ≡ tidy_no no };

    fn from(no: UnlistNo) -> Self {
        match no {
            UnlistNo::Stopped => TidyNo::Stopped,
            UnlistNo::Memory => TidyNo::Memory,
        }
    }
}

impl From<Stopped> for TidyNo {
    ghost use Rattle.std.specs.Prelude.{◌≡◌};
    ghost use Rattle.vos_pool_tidy.specs.declared.refusal.TidyNo.TheVariants.{Stopped as stopped};

    ghost from_gives = { λ _ e. e ≡ stopped };

    fn from(_: Stopped) -> Self {
        TidyNo::Stopped
    }
}
