//! Hands an answer to the devices: its deeds in order, up to the first that is not done.
ghost use Rattle.std.specs.Prelude.{◌≡◌, ◌≤◌};
ghost use Rattle.mosel_run.specs.Delivered.{Delivered};
ghost use Rattle.mosel_run.specs.Doing.{IsDone, IsDoing, IsWritten, IsStored, CanBreak, IsStatusBy};
ghost use Rattle.mosel_run.specs.States.{devices_of};

use crate::answer::{Answer, Deed};
use crate::status::Status;
use mos_text::{Folder, Sink, Stored, Written, write_whole};
use std::alloc::Global;

/// Why a deed was not done.
#[derive(Clone, Copy, Debug)]
pub(crate) enum Cause {
    SinkFault,
    FolderFault,
    NoMemory,
}

/// How deeds were done: all of them, or those before this place.
#[derive(Clone, Copy, Debug)]
pub(crate) enum Doing {
    All,
    Broke(usize, Cause),
}

/// Does what is to be done; the status is that of the answer where all of it is done.
pub(crate) fn deliver<F: Folder, K: Sink>(
    alloc: Global,
    answer: Answer,
    folder: &mut F,
    sink: &mut K,
) -> Status
    ensures delivered { Delivered answer
        (devices_of F.Folder K.Sink folder.old sink.old)
        (devices_of F.Folder K.Sink folder.new sink.new) result }
    ensures folder_faults { F.faults folder.old ≤ F.faults folder.new }
    ensures sink_faults { K.faults sink.old ≤ K.faults sink.new }
{
    let Answer { deeds, status } = answer;
    let mut deeds = deeds;
    match do_each(alloc, deeds.as_slice(), folder, sink) {
        Doing::All => status,
        Doing::Broke(place, cause) => status_by(deeds.remove(place), cause),
    }
}

/// The status where this deed was not done.
fn status_by(deed: Deed, cause: Cause) -> Status
    requires { CanBreak deed cause }
    ensures { IsStatusBy deed cause result }
{
    match cause {
        Cause::SinkFault => Status::SinkFault,
        Cause::FolderFault => fault_at(deed),
        Cause::NoMemory => Status::NoMemory,
    }
}

/// The status where the folder failed at this deed.
fn fault_at(deed: Deed) -> Status
    requires { CanBreak deed Cause.FolderFault }
    ensures { IsStatusBy deed Cause.FolderFault result }
{
    match deed {
        Deed::Store(put) => Status::FolderFault { name: put.name },
        Deed::Write(_) => unreachable!(),
    }
}

/// Does the deeds in order, up to the first that is not done.
fn do_each<F: Folder, K: Sink>(alloc: Global, deeds: &[Deed], folder: &mut F, sink: &mut K) -> Doing
    ensures deeds { IsDoing deeds.now
        (devices_of F.Folder K.Sink folder.old sink.old)
        (devices_of F.Folder K.Sink folder.new sink.new) result }
    ensures folder_faults { F.faults folder.old ≤ F.faults folder.new }
    ensures sink_faults { K.faults sink.old ≤ K.faults sink.new }
{
    let mut place = 0;
    for deed in deeds {
        match do_one(alloc, deed, folder, sink) {
            None => place += 1,
            Some(cause) => return Doing::Broke(place, cause),
        }
    }
    Doing::All
}

/// Does one deed, or says why it is not done.
fn do_one<F: Folder, K: Sink>(
    alloc: Global,
    deed: &Deed,
    folder: &mut F,
    sink: &mut K,
) -> Option<Cause>
    ensures deed { IsDone deed.now
        (devices_of F.Folder K.Sink folder.old sink.old)
        (devices_of F.Folder K.Sink folder.new sink.new) result }
    ensures folder_faults { F.faults folder.old ≤ F.faults folder.new }
    ensures sink_faults { K.faults sink.old ≤ K.faults sink.new }
{
    match deed {
        Deed::Write(text) => cause_of_write(write_whole(sink, text.as_bytes())),
        Deed::Store(put) => cause_of_put(folder.put(alloc, &put.name, put.bytes.as_bytes())),
    }
}

/// Why a text was not written.
fn cause_of_write(written: Written) -> Option<Cause>
    ensures { IsWritten written result }
{
    match written {
        Written::Whole => None,
        Written::Failed => Some(Cause::SinkFault),
        Written::NoMemory => Some(Cause::NoMemory),
    }
}

/// Why a file was not put.
fn cause_of_put(stored: Stored) -> Option<Cause>
    ensures { IsStored stored result }
{
    match stored {
        Stored::Done => None,
        Stored::Failed => Some(Cause::FolderFault),
        Stored::NoMemory => Some(Cause::NoMemory),
    }
}
