// Why an opening is given up.
ghost use Rattle.std.specs.Prelude.{◌≡◌, Bool, true};
ghost use Rattle.vos_chain.specs.declared.refusal.PiecesNo.TheVariants as pieces;
ghost use Rattle.vos_pool_opening.specs.Opening.{IsLack};
ghost use Rattle.vos_pool_tidy.specs.declared.refusal.TidyNo.TheVariants as tidy;

use vos_chain::refusal::PiecesNo;
use vos_pool_make::cause::OpenCause;
use vos_pool_tidy::refusal::TidyNo;

/// Why, where versions couldn't be read.
pub(crate) fn cause_of_pieces(no: PiecesNo) -> OpenCause
    ensures { (stopped : Bool) → (no ≡ pieces.Stopped → stopped ≡ true) → IsLack stopped result }
{
    match no {
        PiecesNo::Stopped => OpenCause::Stopped,
        PiecesNo::Memory => OpenCause::Memory,
    }
}

/// Why, where a pool couldn't be made tidy.
pub(crate) fn cause_of_tidy(no: TidyNo) -> OpenCause
    ensures { (stopped : Bool) → (no ≡ tidy.Stopped → stopped ≡ true) → IsLack stopped result }
{
    match no {
        TidyNo::Stopped => OpenCause::Stopped,
        TidyNo::Memory => OpenCause::Memory,
    }
}
