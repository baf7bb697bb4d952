// The blocks that fields behind the fixed places may lead to.
ghost use Rattle.std.specs.Prelude.{◌≡◌, IfErr, IfOk, IsTrue, [], true};
ghost use Rattle.vos_image.specs.Content.{Content};
ghost use Rattle.vos_check_places.specs.vos_places.Tables.{AreRoots};
ghost use Rattle.vos_check_base.specs.Answers.{MarksIn, content};
ghost use Rattle.vos_check_base.specs.Health.{IsRead, is_stopped, says_stopped};
ghost use Rattle.vos_check_base.specs.Sets.{open_of};
ghost use Rattle.vos_check_content.specs.Whole.{LeadsBoth, both_roots};

use vos_check_base::fresh::Fresh;
use vos_check_base::ground::Ground;
use vos_check_base::refusal::CheckNo;
use vos_check_base::source::{Source, blame};

// The two roots are led to.
fn lead_both(fresh: &mut Fresh, objects: u32, entries: u32) -> Result<(), u64>
    ensures { (c : Content) → AreRoots c objects entries → MarksIn c (open_of fresh.old) [] → LeadsBoth c objects entries (open_of fresh.new) result }
{
    fresh.lead(40, objects)?;
    fresh.lead(44, entries)
}

/// All taken blocks of a content but for the two roots.
pub(crate) fn behind_roots<S: Source>(
    source: &mut S,
    ground: &Ground,
    objects: u32,
    entries: u32,
) -> Result<Fresh, CheckNo>
    requires roots { IsTrue S.tells → AreRoots (content ground.now (S.bytes source.old)) objects entries }
    ensures marks { IfOk result (λ fresh. IsTrue S.tells → MarksIn (content ground.now (S.bytes source.old)) (open_of fresh) (both_roots objects entries)) }
    ensures stopped { IfErr result (λ e. IsTrue S.tells → is_stopped e ≡ true) }
    ensures kept { IsTrue S.tells → S.bytes source.new ≡ S.bytes source.old }
    ensures stops { IsRead S.health S.looked source.old source.new (says_stopped result) }
{
    let mut fresh = Fresh::new(source, ground)?;
    match lead_both(&mut fresh, objects, entries) {
        Ok(()) => Ok(fresh),
        Err(at) => Err(blame(source, at)),
    }
}
