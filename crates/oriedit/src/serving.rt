//! Connections that a door hands out, served one after another.
ghost use Rattle.std.specs.Prelude.{◌≡◌, ◌≤◌, ℕ, List, Option, Some, None};
ghost use Rattle.ports.specs.Streams.{HasCause};
ghost use Rattle.oriedit.specs.Script.{works};
ghost use Rattle.oriedit.specs.Outside.{outside};
ghost use Rattle.oriedit.specs.Attaching.{Attached, Serves};
ghost use Rattle.oriedit.specs.Connections.{end_side, kept};
ghost use Rattle.oriedit.specs.Serving.{ends_seen, ServesNext, ServingEnds, door_side};

use crate::Status;
use crate::connection::answer_one;
use ports::{Door, Failed};
use projects::{Desk, Keeper, KeeperEnd};
use std::alloc::Global;

/// Listens at a port and serves at most so many connections, one after another, or until no more
/// come. Each is finished, whatever came of it.
pub(crate) fn serve<K: Keeper, D: Door>(
    alloc: Global,
    port: u16,
    connections: u64,
    keeper: &mut K,
    door: &mut D,
) -> Status
    requires { D.door_port door.old ≡ None }
    ensures serves { ServingEnds port connections
        (door_side (D.door_port door.old)
        (ends_seen (λ e. end_side (D.End.left e) (D.End.Source.faults e) (D.End.held e) (D.End.Sink.faults e))
        (D.ends door.old)) (D.door_faults door.old))
        (kept (K.tables keeper.old) (K.faults keeper.old)) (K.is_clean keeper.new)
        (door_side (D.door_port door.new)
        (ends_seen (λ e. end_side (D.End.left e) (D.End.Source.faults e) (D.End.held e) (D.End.Sink.faults e))
        (D.ends door.new)) (D.door_faults door.new))
        (kept (K.tables keeper.new) (K.faults keeper.new)) result }
    ensures not_read_fault { ¬ (result ≡ Status.ReadFault) }
    ensures not_write_fault { ¬ (result ≡ Status.WriteFault) }
    ensures door_faults { D.door_faults door.old ≤ D.door_faults door.new }
    ensures keeper_faults { K.faults keeper.old ≤ K.faults keeper.new }
    ensures keeper_clean { K.is_clean keeper.new → K.is_clean keeper.old }
    ensures keeper_path { K.keeper_path keeper.new ≡ K.keeper_path keeper.old }
{
    let Ok(mut desk) = Desk::new(alloc) else {
        return Status::NoMemory;
    };
    if door.listen(port).is_err() {
        return Status::DoorFault;
    }
    for _turn in 0..connections {
        match serve_next(alloc, &mut desk, keeper, door) {
            Ok(true) => {}
            Ok(false) => return Status::Ok,
            Err(Failed) => return Status::DoorFault,
        }
    }
    Status::Ok
}

/// Serves the next connection, and answers whether there was one.
fn serve_next<K: Keeper, D: Door>(
    alloc: Global,
    desk: &mut Desk,
    keeper: &mut K,
    door: &mut D,
) -> Result<bool, Failed>
    ensures next { ServesNext
        (ends_seen (λ e. end_side (D.End.left e) (D.End.Source.faults e) (D.End.held e) (D.End.Sink.faults e))
        (D.ends door.old))
        (kept (K.tables keeper.old) (K.faults keeper.old)) (K.is_clean keeper.new)
        (ends_seen (λ e. end_side (D.End.left e) (D.End.Source.faults e) (D.End.held e) (D.End.Sink.faults e))
        (D.ends door.new))
        (kept (K.tables keeper.new) (K.faults keeper.new)) result }
    ensures port { D.door_port door.new ≡ D.door_port door.old }
    ensures cause { HasCause (D.door_faults door.old) (D.door_faults door.new) result }
    ensures keeper_faults { K.faults keeper.old ≤ K.faults keeper.new }
    ensures keeper_clean { K.is_clean keeper.new → K.is_clean keeper.old }
    ensures keeper_path { K.keeper_path keeper.new ≡ K.keeper_path keeper.old }
{
    let Some(mut end) = door.next()? else {
        return Ok(false);
    };
    answer_one(alloc, desk, keeper, &mut end);
    door.finish(end);
    Ok(true)
}

/// Attaches the keeper at the path, and then serves connections at a port.
pub(crate) fn kept_serve<K: Keeper, D: Door>(
    alloc: Global,
    port: u16,
    connections: u64,
    path: &str,
    keeper: &mut K,
    door: &mut D,
) -> Status
    requires path { K.keeper_path keeper.old ≡ None }
    requires port { D.door_port door.old ≡ None }
    ensures serves { (left held : Option (List ℕ)) (takes puts : ℕ)
        → Attached (Some path.now) (Serves port connections (K.is_clean keeper.new))
        (outside left (works held (K.tables keeper.old) (K.faults keeper.old)) takes puts
        (K.keeper_path keeper.old)
        (door_side (D.door_port door.old)
        (ends_seen (λ e. end_side (D.End.left e) (D.End.Source.faults e) (D.End.held e) (D.End.Sink.faults e))
        (D.ends door.old)) (D.door_faults door.old)))
        (K.is_clean keeper.new)
        (outside left (works held (K.tables keeper.new) (K.faults keeper.new)) takes puts
        (K.keeper_path keeper.new)
        (door_side (D.door_port door.new)
        (ends_seen (λ e. end_side (D.End.left e) (D.End.Source.faults e) (D.End.held e) (D.End.Sink.faults e))
        (D.ends door.new)) (D.door_faults door.new)))
        result }
    ensures not_read_fault { ¬ (result ≡ Status.ReadFault) }
    ensures not_write_fault { ¬ (result ≡ Status.WriteFault) }
    ensures door_faults { D.door_faults door.old ≤ D.door_faults door.new }
    ensures keeper_faults { K.faults keeper.old ≤ K.faults keeper.new }
    ensures keeper_clean { K.is_clean keeper.new → K.is_clean keeper.old }
{
    match keeper.attach(alloc, path) {
        Ok(()) => serve(alloc, port, connections, keeper, door),
        Err(KeeperEnd::Failed) => Status::KeeperFault,
        Err(KeeperEnd::NoMemory) => Status::NoMemory,
    }
}
