//! The call that does all that the program does.
ghost use Rattle.std.specs.Prelude.{◌≡◌, ◌+◌, ◌≤◌, None, map, string_bytes};
ghost use Rattle.ports.specs.Streams.{Rose};
ghost use Rattle.oriedit.specs.Script.{works};
ghost use Rattle.oriedit.specs.Outside.{outside};
ghost use Rattle.oriedit.specs.Connections.{end_side};
ghost use Rattle.oriedit.specs.Serving.{door_side, ends_seen};
ghost use Rattle.oriedit.specs.CutText.{CutText};
ghost use Rattle.oriedit.specs.CheckText.{CheckText};
ghost use Rattle.oriedit.specs.Run.{InputRuns, Means, Runs, turns_of};
ghost use Rattle.words.specs.Tasks.{task_of};

use crate::Status;
use crate::attaching::kept_script;
use crate::checking::check;
use crate::cutting::{cut, usage};
use crate::generating::generate;
use crate::reading::{ReadEnd, read_all};
use crate::scripting::script;
use crate::serving::{kept_serve, serve};
use lattice::Lattice;
use ports::{Door, NoMemory, Sink, Source};
use projects::Keeper;
use sheet::Sheet;
use std::alloc::Global;
use words::{Ask, asked};

/// The input of `cut` and that of `check` have fewer bytes than this, 2^24.
const LIMIT: usize = 16_777_216;

/// Does all that the program does. The words are those after the program's name. `cut` alone reads
/// a pattern's text and writes its subdivision; `check` with its settings reads a CP text and writes
/// the faults of what it draws; `script` reads commands and writes their replies; `generate` with a
/// seed and a number of turns reads nothing, does that many turns of the generator, and writes the
/// summary; `serve` with a port answers requests that come there, over so many connections as the words
/// say, one after another. Other words write the usage text. Where the words of `script` or `serve` name
/// a path, the keeper is attached there before all else, and `KeeperFault` comes where that fails.
/// `DoorFault` comes where the door fails. At most one take fails in a run, whatever the source does:
/// none follows one that failed.
#[tactic(auto, using(crate::proofs::FewTurns::few_turns))]
pub fn run<S: Source, W: Sink, K: Keeper, D: Door>(
    alloc: Global,
    words: &[String],
    source: &mut S,
    sink: &mut W,
    keeper: &mut K,
    door: &mut D,
) -> Status
    requires path { K.keeper_path keeper.old ≡ None }
    requires port { D.door_port door.old ≡ None }
    ensures runs { Runs (map string_bytes words.now)
        (outside (S.left source.old) (works (W.held sink.old) (K.tables keeper.old) (K.faults keeper.old))
        (S.faults source.old) (W.faults sink.old) (K.keeper_path keeper.old)
        (door_side (D.door_port door.old)
        (ends_seen (λ e. end_side (D.End.left e) (D.End.Source.faults e) (D.End.held e) (D.End.Sink.faults e))
        (D.ends door.old)) (D.door_faults door.old)))
        (K.is_clean keeper.new)
        (outside (S.left source.new) (works (W.held sink.new) (K.tables keeper.new) (K.faults keeper.new))
        (S.faults source.new) (W.faults sink.new) (K.keeper_path keeper.new)
        (door_side (D.door_port door.new)
        (ends_seen (λ e. end_side (D.End.left e) (D.End.Source.faults e) (D.End.held e) (D.End.Sink.faults e))
        (D.ends door.new)) (D.door_faults door.new)))
        result }
    ensures read_fault { result ≡ Status.ReadFault → Rose (S.faults source.old) (S.faults source.new) }
    ensures write_fault { result ≡ Status.WriteFault → Rose (W.faults sink.old) (W.faults sink.new) }
    ensures source_faults { S.faults source.old ≤ S.faults source.new }
    ensures one_failed_take { S.faults source.new ≤ S.faults source.old + 1 }
    ensures sink_faults { W.faults sink.old ≤ W.faults sink.new }
    ensures keeper_faults { K.faults keeper.old ≤ K.faults keeper.new }
    ensures door_faults { D.door_faults door.old ≤ D.door_faults door.new }
    ensures source_aside { S.aside source.new ≡ S.aside source.old }
    ensures sink_aside { W.aside sink.new ≡ W.aside sink.old }
    ensures keeper_clean { K.is_clean keeper.new → K.is_clean keeper.old }
{
    match asked(alloc, words) {
        Ok(ask) => run_asked(alloc, &ask, source, sink, keeper, door),
        Err(NoMemory) => Status::NoMemory,
    }
}

/// Does what the words ask for.
fn run_asked<S: Source, W: Sink, K: Keeper, D: Door>(
    alloc: Global,
    ask: &Ask<'_>,
    source: &mut S,
    sink: &mut W,
    keeper: &mut K,
    door: &mut D,
) -> Status
    requires turns { turns_of (task_of ask.now) ≤ 100000 }
    requires path { K.keeper_path keeper.old ≡ None }
    requires port { D.door_port door.old ≡ None }
    ensures means { Means (task_of ask.now)
        (outside (S.left source.old) (works (W.held sink.old) (K.tables keeper.old) (K.faults keeper.old))
        (S.faults source.old) (W.faults sink.old) (K.keeper_path keeper.old)
        (door_side (D.door_port door.old)
        (ends_seen (λ e. end_side (D.End.left e) (D.End.Source.faults e) (D.End.held e) (D.End.Sink.faults e))
        (D.ends door.old)) (D.door_faults door.old)))
        (K.is_clean keeper.new)
        (outside (S.left source.new) (works (W.held sink.new) (K.tables keeper.new) (K.faults keeper.new))
        (S.faults source.new) (W.faults sink.new) (K.keeper_path keeper.new)
        (door_side (D.door_port door.new)
        (ends_seen (λ e. end_side (D.End.left e) (D.End.Source.faults e) (D.End.held e) (D.End.Sink.faults e))
        (D.ends door.new)) (D.door_faults door.new)))
        result }
    ensures read_fault { result ≡ Status.ReadFault → Rose (S.faults source.old) (S.faults source.new) }
    ensures write_fault { result ≡ Status.WriteFault → Rose (W.faults sink.old) (W.faults sink.new) }
    ensures source_faults { S.faults source.old ≤ S.faults source.new }
    ensures one_failed_take { S.faults source.new ≤ S.faults source.old + 1 }
    ensures sink_faults { W.faults sink.old ≤ W.faults sink.new }
    ensures keeper_faults { K.faults keeper.old ≤ K.faults keeper.new }
    ensures door_faults { D.door_faults door.old ≤ D.door_faults door.new }
    ensures source_aside { S.aside source.new ≡ S.aside source.old }
    ensures sink_aside { W.aside sink.new ≡ W.aside sink.old }
    ensures keeper_clean { K.is_clean keeper.new → K.is_clean keeper.old }
{
    match ask {
        Ask::Usage => usage(sink),
        Ask::Cut => cut_input(alloc, source, sink),
        Ask::Check { lattice, sheet } => check_input(alloc, source, sink, lattice, sheet),
        Ask::Script { keep } => match keep {
            None => script(alloc, source, sink, keeper),
            Some(path) => kept_script(alloc, path, source, sink, keeper),
        },
        Ask::Generate { seed, count } => generate(alloc, *seed, *count, sink, keeper),
        Ask::Serve {
            port,
            connections,
            keep,
        } => match keep {
            None => serve(alloc, *port, *connections, keeper, door),
            Some(path) => kept_serve(alloc, *port, *connections, path, keeper, door),
        },
    }
}

/// Does what `cut` does: reads a pattern's text and writes its subdivision.
fn cut_input<S: Source, W: Sink>(alloc: Global, source: &mut S, sink: &mut W) -> Status
    ensures cut { InputRuns CutText (S.left source.old) (S.left source.new)
        (W.held sink.old) (W.held sink.new) result }
    ensures read_fault { result ≡ Status.ReadFault → Rose (S.faults source.old) (S.faults source.new) }
    ensures write_fault { result ≡ Status.WriteFault → Rose (W.faults sink.old) (W.faults sink.new) }
    ensures source_faults { S.faults source.old ≤ S.faults source.new }
    ensures one_failed_take { S.faults source.new ≤ S.faults source.old + 1 }
    ensures sink_faults { W.faults sink.old ≤ W.faults sink.new }
    ensures source_aside { S.aside source.new ≡ S.aside source.old }
    ensures sink_aside { W.aside sink.new ≡ W.aside sink.old }
{
    match read_all(alloc, source, LIMIT) {
        Err(ReadEnd::Failed) => Status::ReadFault,
        Err(ReadEnd::TooLong) => Status::TooLong,
        Err(ReadEnd::NoMemory) => Status::NoMemory,
        Ok(bytes) => cut(alloc, &bytes, sink),
    }
}

/// Does what `check` does: reads a CP text and writes the faults of what it draws.
fn check_input<S: Source, W: Sink>(
    alloc: Global,
    source: &mut S,
    sink: &mut W,
    lattice: &Lattice,
    sheet: &Sheet,
) -> Status
    ensures check { InputRuns (CheckText lattice.now sheet.now) (S.left source.old) (S.left source.new)
        (W.held sink.old) (W.held sink.new) result }
    ensures read_fault { result ≡ Status.ReadFault → Rose (S.faults source.old) (S.faults source.new) }
    ensures write_fault { result ≡ Status.WriteFault → Rose (W.faults sink.old) (W.faults sink.new) }
    ensures source_faults { S.faults source.old ≤ S.faults source.new }
    ensures one_failed_take { S.faults source.new ≤ S.faults source.old + 1 }
    ensures sink_faults { W.faults sink.old ≤ W.faults sink.new }
    ensures source_aside { S.aside source.new ≡ S.aside source.old }
    ensures sink_aside { W.aside sink.new ≡ W.aside sink.old }
{
    match read_all(alloc, source, LIMIT) {
        Err(ReadEnd::Failed) => Status::ReadFault,
        Err(ReadEnd::TooLong) => Status::TooLong,
        Err(ReadEnd::NoMemory) => Status::NoMemory,
        Ok(bytes) => check(alloc, &bytes, lattice, sheet, sink),
    }
}
