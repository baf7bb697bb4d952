// The steps of the rows, over any store.
ghost use Rattle.std.specs.Prelude.{◌≡◌, ◌≤◌, false, true, IfOk, OnOk, Some};
ghost use Rattle.std.specs.Option.{ForSome, option_map};
ghost use Rattle.daos_model.specs.Durables.{empty_durable};
ghost use Rattle.daos_model.specs.Forms.{is_write_in_form};
ghost use Rattle.vos_tests.specs.Rows.{CanPut, IsHere, RunsOn, akey, attempt, put, staged, started, unopened, value};

use base_types::entry::{Entry, Settle};
use base_types::epoch::Epoch;
use base_types::id::{AttemptId, Class, ContId, ObjId};
use base_types::items::{Memory, bytes_of};
use base_types::key::{Key, KeyNo};
use base_types::operation::{MinorWrite, Write};
use base_types::path::Path;
use std::alloc::Global;
use vos_store::refusal::{EnlistNo, LaterNo, PrepareNo, Stopped};
use vos_store::store::Store;

/// The container of the rows.
pub(crate) const CONT: ContId = ContId(1);

/// A step isn't made.
#[derive(Clone, Copy)]
pub(crate) struct StepNo;

impl From<KeyNo> for StepNo {
    fn from(_no: KeyNo) -> StepNo {
        StepNo
    }
}

impl From<EnlistNo> for StepNo {
    fn from(_no: EnlistNo) -> StepNo {
        StepNo
    }
}

impl From<PrepareNo> for StepNo {
    fn from(_no: PrepareNo) -> StepNo {
        StepNo
    }
}

impl From<Stopped> for StepNo {
    fn from(_no: Stopped) -> StepNo {
        StepNo
    }
}

impl From<LaterNo> for StepNo {
    fn from(_no: LaterNo) -> StepNo {
        StepNo
    }
}

impl From<Memory> for StepNo {
    fn from(_no: Memory) -> StepNo {
        StepNo
    }
}

/// The akey a under the dkey d of the object of class S1 and number 0 with records of four bytes.
pub(crate) fn akey(alloc: Global) -> Result<Path, KeyNo>
    ensures { IfOk result (λ path. path ≡ akey) }
{
    Ok(Path {
        cont: ContId(1),
        obj: Some(ObjId {
            class: Class::S1,
            number: 0,
            unit: 4,
        }),
        dkey: Some(Key::new(alloc, b"d")?),
        akey: Some(Key::new(alloc, b"a")?),
    })
}

/// Two records at the indexes 1 and 2 of the akey.
pub(crate) fn two_records(alloc: Global) -> Result<Write, KeyNo>
    ensures { IfOk result IsHere }
{
    Ok(Write::Extent(akey(alloc)?, 1, bytes_of(alloc, b"abcdwxyz")?))
}

/// A value at the akey.
pub(crate) fn value(alloc: Global, bytes: &[u8]) -> Result<Write, KeyNo>
    ensures { IfOk result (λ write. write ≡ value bytes.now) }
{
    Ok(Write::Single(akey(alloc)?, bytes_of(alloc, bytes)?))
}

/// The first attempt of a command of the first client.
pub(crate) fn attempt(number: u32) -> AttemptId
    ensures { result ≡ attempt number }
{
    AttemptId {
        client: 0,
        command: number,
        attempt: 0,
    }
}

/// Enlists the container, and extends the lease to 65,536.
pub(crate) fn start<S: Store>(store: &mut S) -> Result<(), StepNo>
    requires runs { (S.state store.old).stopped ≡ false }
    requires empty { S.durable store.old ≡ Some (empty_durable 1) }
    ensures kept { OnOk result (S.durable store.new ≡ Some started) }
    ensures state { OnOk result (RunsOn (S.state store.old) (S.state store.new)) }
{
    store.enlist(&[ContId(1)])?;
    store.extend_lease(65_536)?;
    Ok(())
}

/// Prepares the first transaction, of one write, at 256.
pub(crate) fn stage<S: Store>(store: &mut S, number: u32, write: Write) -> Result<(), StepNo>
    requires runs { (S.state store.old).stopped ≡ false }
    requires targets { 1 ≤ (S.state store.old).targets }
    requires opening { (S.state store.old).opening ≡ unopened }
    requires empty { S.durable store.old ≡ Some started }
    requires write { IsHere write }
    ensures kept { OnOk result (S.durable store.new ≡ Some (staged number write)) }
    ensures state { OnOk result (RunsOn (S.state store.old) (S.state store.new)) }
{
    let entry = Entry {
        attempt: attempt(number),
        epoch: Epoch(256),
        leader: 0,
        members: 1,
        confirmed: 0,
        committed: false,
    };
    store.prepare(&entry, &[MinorWrite { minor: 0, write }])?;
    Ok(())
}

/// An attempt puts a value at an epoch, and is committed.
pub(crate) fn put<S: Store>(
    alloc: Global,
    store: &mut S,
    number: u32,
    epoch: u64,
    bytes: &[u8],
) -> Result<(), StepNo>
    requires runs { (S.state store.old).stopped ≡ false }
    requires targets { 1 ≤ (S.state store.old).targets }
    requires form { is_write_in_form (value bytes.now) ≡ true }
    requires here { ForSome (S.durable store.old) (CanPut (S.state store.old) number epoch bytes.now) }
    ensures kept { OnOk result (S.durable store.new ≡ option_map (put number epoch bytes.now) (S.durable store.old)) }
    ensures state { OnOk result (RunsOn (S.state store.old) (S.state store.new)) }
{
    let entry = Entry {
        attempt: attempt(number),
        epoch: Epoch(epoch),
        leader: 0,
        members: 1,
        confirmed: 0,
        committed: false,
    };
    let write = value(alloc, bytes)?;
    store.prepare(&entry, &[MinorWrite { minor: 0, write }])?;
    store.settle(attempt(number), Settle::Commit)?;
    Ok(())
}
