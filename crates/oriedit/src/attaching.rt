//! Commands whose words name a path for the keeper.
ghost use Rattle.std.specs.Prelude.{◌≡◌, ◌+◌, ◌≤◌, Some, None};
ghost use Rattle.ports.specs.Streams.{Rose};
ghost use Rattle.oriedit.specs.Script.{works};
ghost use Rattle.oriedit.specs.Outside.{outside};
ghost use Rattle.oriedit.specs.Attaching.{Attached, Scripts};
ghost use Rattle.oriedit.specs.Serving.{DoorSide};

use crate::Status;
use crate::scripting::script;
use ports::{Sink, Source};
use projects::{Keeper, KeeperEnd};
use std::alloc::Global;

/// Attaches the keeper at the path, and then does what `script` does.
pub(crate) fn kept_script<S: Source, W: Sink, K: Keeper>(
    alloc: Global,
    path: &str,
    source: &mut S,
    sink: &mut W,
    keeper: &mut K,
) -> Status
    requires { K.keeper_path keeper.old ≡ None }
    ensures script { (door : DoorSide) → Attached (Some path.now) (Scripts (K.is_clean keeper.new))
        (outside (S.left source.old) (works (W.held sink.old) (K.tables keeper.old) (K.faults keeper.old))
        (S.faults source.old) (W.faults sink.old) (K.keeper_path keeper.old) door)
        (K.is_clean keeper.new)
        (outside (S.left source.new) (works (W.held sink.new) (K.tables keeper.new) (K.faults keeper.new))
        (S.faults source.new) (W.faults sink.new) (K.keeper_path keeper.new) door)
        result }
    ensures read_fault { result ≡ Status.ReadFault → Rose (S.faults source.old) (S.faults source.new) }
    ensures write_fault { result ≡ Status.WriteFault → Rose (W.faults sink.old) (W.faults sink.new) }
    ensures source_faults { S.faults source.old ≤ S.faults source.new }
    ensures one_failed_take { S.faults source.new ≤ S.faults source.old + 1 }
    ensures sink_faults { W.faults sink.old ≤ W.faults sink.new }
    ensures keeper_faults { K.faults keeper.old ≤ K.faults keeper.new }
    ensures source_aside { S.aside source.new ≡ S.aside source.old }
    ensures sink_aside { W.aside sink.new ≡ W.aside sink.old }
    ensures keeper_clean { K.is_clean keeper.new → K.is_clean keeper.old }
{
    match keeper.attach(alloc, path) {
        Ok(()) => script(alloc, source, sink, keeper),
        Err(KeeperEnd::Failed) => Status::KeeperFault,
        Err(KeeperEnd::NoMemory) => Status::NoMemory,
    }
}
