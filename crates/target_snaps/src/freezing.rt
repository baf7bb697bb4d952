// A target freezes a snapshot.
ghost use Rattle.std.specs.Prelude.{◌≡◌, ◌<◌, length, nat_le, true, false};
ghost use Rattle.std.specs.Option.{ForSome};
ghost use Rattle.daos_model.specs.declared.durable.Durable.{Durable};
ghost use Rattle.daos_model.specs.Durables.{is_frozen, row_of};
ghost use Rattle.vos_store.specs.Conditions.{CanFreeze};
ghost use Rattle.target_parts.specs.Halts.{halt_stop};
ghost use Rattle.target_parts.specs.Parts.{Runs};
ghost use Rattle.base_types.specs.Operations.{read_path};
ghost use Rattle.daos_model.specs.Forms.{is_read_in_form};
ghost use Rattle.target_snaps.specs.Freezing.{FreezesOrCut, froze_by};

use crate::places::look;
use base_types::epoch::Epoch;
use base_types::id::ContId;
use base_types::operation::Read;
use base_types::path::Path;
use target_parts::halt::Halt;
use vos_store::refusal::{FetchNo, FreezeNo};
use vos_store::store::Store;

/// What a freeze comes to: the snapshot was frozen; or it had been; or it is refused.
#[derive(Clone, Copy)]
pub enum Froze {
    Anew,
    Before,
    Refused(FreezeNo),
}

// A snapshot that is there is frozen again, which changes nothing. The store refuses that at or below the aggregated-to
// epoch.
fn freeze_again<S: Store>(store: &mut S, cont: ContId, epoch: Epoch) -> Result<Froze, Halt>
    requires running { (S.state store.old).stopped ≡ false }
    requires can { ForSome (S.durable store.old) (CanFreeze cont epoch) }
    requires there { ForSome (S.durable store.old) (λ d. is_frozen d cont epoch ≡ true) }
    ensures runs { Runs halt_stop result (S.state store.old) (S.state store.new) (S.durable store.old) (S.durable store.new) }
    ensures froze { (d : Durable) → S.durable store.old ≡ Some d
        → FreezesOrCut cont epoch d (S.state store.old) (S.durable store.new) (S.state store.new) (S.may store.new) result }
{
    match store.freeze(cont, epoch) {
        Ok(()) => Ok(Froze::Before),
        Err(FreezeNo::Stopped) => Err(Halt::Stopped),
        Err(no) => Ok(Froze::Refused(no)),
    }
}

// A snapshot that isn't there, and that nothing refuses, is frozen.
fn freeze_anew<S: Store>(store: &mut S, cont: ContId, epoch: Epoch) -> Result<Froze, Halt>
    requires running { (S.state store.old).stopped ≡ false }
    requires can { ForSome (S.durable store.old) (CanFreeze cont epoch) }
    requires new { ForSome (S.durable store.old) (λ d. is_frozen d cont epoch ≡ false) }
    requires above { ForSome (S.durable store.old) (λ d. nat_le epoch.0 (row_of d cont).aggregated.0 ≡ false) }
    requires place { ForSome (S.durable store.old) (λ d. nat_le 256 (length d.snaps) ≡ false) }
    ensures runs { Runs halt_stop result (S.state store.old) (S.state store.new) (S.durable store.old) (S.durable store.new) }
    ensures froze { (d : Durable) → S.durable store.old ≡ Some d
        → FreezesOrCut cont epoch d (S.state store.old) (S.durable store.new) (S.state store.new) (S.may store.new) result }
{
    match store.freeze(cont, epoch) {
        Ok(()) => Ok(Froze::Anew),
        Err(FreezeNo::Stopped) => Err(Halt::Stopped),
        Err(no) => Ok(Froze::Refused(no)),
    }
}

// What the refusal of a read at the epoch says of a freeze.
fn refused_so(no: FetchNo) -> Result<Froze, Halt>
    ensures { result ≡ froze_by no }
{
    match no {
        FetchNo::Aggregated(upto, number) => Ok(Froze::Refused(FreezeNo::Below(upto, number))),
        FetchNo::Stopped => Err(Halt::Stopped),
        FetchNo::Memory => Err(Halt::Memory),
        FetchNo::Unsettled(_by) => Ok(Froze::Refused(FreezeNo::NoPlace)),
    }
}

// A snapshot that isn't there can't be frozen at or below the aggregated-to epoch. A read of the container there is told
// by which aggregation, and where the store stops as it answers, nothing is changed.
fn refuse_below<S: Store>(
    store: &mut S,
    read: &Read,
    cont: ContId,
    epoch: Epoch,
) -> Result<Froze, Halt>
    requires running { (S.state store.old).stopped ≡ false }
    requires form { is_read_in_form read.now ≡ true }
    requires of_cont { (read_path read.now).cont ≡ cont }
    requires can { ForSome (S.durable store.old) (CanFreeze cont epoch) }
    requires new { ForSome (S.durable store.old) (λ d. is_frozen d cont epoch ≡ false) }
    requires below { ForSome (S.durable store.old) (λ d. nat_le epoch.0 (row_of d cont).aggregated.0 ≡ true) }
    ensures runs { Runs halt_stop result (S.state store.old) (S.state store.new) (S.durable store.old) (S.durable store.new) }
    ensures froze { (d : Durable) → S.durable store.old ≡ Some d
        → FreezesOrCut cont epoch d (S.state store.old) (S.durable store.new) (S.state store.new) (S.may store.new) result }
{
    let _cont = cont;
    match store.fetch(read, epoch) {
        Ok(_answer) => Ok(Froze::Refused(FreezeNo::NoPlace)),
        Err(no) => refused_so(no),
    }
}

// A read of a container.
fn reading_of(cont: ContId) -> Read
    ensures form { is_read_in_form result ≡ true }
    ensures of_cont { (read_path result).cont ≡ cont }
{
    Read::Exists(Path {
        cont,
        obj: None,
        dkey: None,
        akey: None,
    })
}

/// It freezes a container at an epoch that the lease covers, unless that is refused.
///
/// # Errors
///
/// `Stopped` where the store stopped; else for want of memory, and then nothing was changed.
pub fn freeze_at<S: Store>(store: &mut S, cont: ContId, epoch: Epoch) -> Result<Froze, Halt>
    requires running { (S.state store.old).stopped ≡ false }
    requires can { ForSome (S.durable store.old) (CanFreeze cont epoch) }
    ensures runs { Runs halt_stop result (S.state store.old) (S.state store.new) (S.durable store.old) (S.durable store.new) }
    ensures froze { (d : Durable) → S.durable store.old ≡ Some d
        → FreezesOrCut cont epoch d (S.state store.old) (S.durable store.new) (S.state store.new) (S.may store.new) result }
{
    let there = look(store, cont, epoch)?;
    if there.frozen {
        return freeze_again(store, cont, epoch);
    }
    if epoch.0 <= store.aggregated(cont).0 {
        return refuse_below(store, &reading_of(cont), cont, epoch);
    }
    if there.full {
        return Ok(Froze::Refused(FreezeNo::NoPlace));
    }
    freeze_anew(store, cont, epoch)
}
