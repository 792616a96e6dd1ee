//! Runs of a generator: its commands, one after another, and the summary of their replies.
ghost use Rattle.std.specs.Prelude.{◌≡◌, ◌≤◌, ◌<◌, ◌+◌, ◌%◌, ◌-◌, ◌∷◌, None, IfOk};
ghost use Rattle.ports.specs.Streams.{Rose};
ghost use Rattle.oriedit.specs.Script.{works};
ghost use Rattle.oriedit.specs.Generating.{subject, asked, Kind, Turning, Asking, Framing, question};
ghost use Rattle.oriedit.specs.Generating.{Generates};
ghost use Rattle.dialogue.specs.declared.command.Command.TheVariants as command;
ghost use Rattle.oriedit.specs.Summary.{plus, of_turn, of_question, creases_told as creases_of};
ghost use Rattle.oriedit.specs.Summary.{sizes_told as sizes_of, faults_told as faults_of};
ghost use Rattle.oriedit.specs.Counting.{Learns, IsTurnMore, IsQuestionMore, Counts, IsSmall, Tallies};
ghost use Rattle.oriedit.specs.Counting.{Closes, AnswersAll, Summarizes};

use crate::Status;
use crate::summary::{Last, Sizes, creases_told, faults_told, sizes_told, summary};
use crate::tally::Tally;
use dialogue::{Command, Reply};
use generator::Generator;
use ports::{NoMemory, Sink};
use projects::{Desk, Keeper};
use sheet::Sheet;
use std::alloc::Global;
use vocabulary::Name;

/// Makes the project `g` on the unit square, does so many turns of the generator with this seed, asks
/// for the faults after every sixteenth of them, and for the pattern, its subdivision and its faults
/// at the end, and writes the summary of the replies.
pub(crate) fn generate<W: Sink, K: Keeper>(
    alloc: Global,
    seed: u64,
    count: u64,
    sink: &mut W,
    keeper: &mut K,
) -> Status
    requires { count ≤ 100000 }
    ensures generates { Generates seed count
        (works (W.held sink.old) (K.tables keeper.old) (K.faults keeper.old)) (K.is_clean keeper.new)
        (works (W.held sink.new) (K.tables keeper.new) (K.faults keeper.new)) result }
    ensures write_fault { result ≡ Status.WriteFault → Rose (W.faults sink.old) (W.faults sink.new) }
    ensures sink_faults { W.faults sink.old ≤ W.faults sink.new }
    ensures keeper_faults { K.faults keeper.old ≤ K.faults keeper.new }
    ensures sink_aside { W.aside sink.new ≡ W.aside sink.old }
    ensures keeper_clean { K.is_clean keeper.new → K.is_clean keeper.old }
    ensures keeper_path { K.keeper_path keeper.new ≡ K.keeper_path keeper.old }
{
    let Ok(text) = summarized(alloc, seed, count, keeper) else {
        return Status::NoMemory;
    };
    match sink.put(&text) {
        Ok(()) => Status::Ok,
        Err(_) => Status::WriteFault,
    }
}

/// The summary of all replies.
fn summarized<K: Keeper>(
    alloc: Global,
    seed: u64,
    count: u64,
    keeper: &mut K,
) -> Result<Vec<u8>, NoMemory>
    requires { count ≤ 100000 }
    ensures summary { Summarizes (λ text. text.items) seed count
        (works None (K.tables keeper.old) (K.faults keeper.old)) (K.is_clean keeper.new)
        (works None (K.tables keeper.new) (K.faults keeper.new)) result }
    ensures keeper_faults { K.faults keeper.old ≤ K.faults keeper.new }
    ensures keeper_clean { K.is_clean keeper.new → K.is_clean keeper.old }
    ensures keeper_path { K.keeper_path keeper.new ≡ K.keeper_path keeper.old }
{
    let mut desk = Desk::new(alloc)?;
    let (tally, last) = answered(alloc, &mut desk, seed, count, keeper)?;
    Ok(summary(alloc, seed, count, &tally, &last)?)
}

/// What all replies come to.
fn answered<K: Keeper>(
    alloc: Global,
    desk: &mut Desk,
    seed: u64,
    count: u64,
    keeper: &mut K,
) -> Result<(Tally, Last), NoMemory>
    requires { count ≤ 100000 }
    ensures all { AnswersAll seed count
        (works None (K.tables keeper.old) (K.faults keeper.old)) (K.is_clean keeper.new)
        (works None (K.tables keeper.new) (K.faults keeper.new)) result }
    ensures keeper_faults { K.faults keeper.old ≤ K.faults keeper.new }
    ensures keeper_clean { K.is_clean keeper.new → K.is_clean keeper.old }
    ensures keeper_path { K.keeper_path keeper.new ≡ K.keeper_path keeper.old }
{
    let name = Name::new(b"g").unwrap();
    let new = Command::New {
        name: name.copy(),
        sheet: Sheet::square(),
    };
    reply_to(alloc, desk, new, keeper)?;
    let tally = tallied(alloc, desk, &name, seed, count, keeper)?;
    let last = closed(alloc, desk, &name, keeper)?;
    Ok((tally, last))
}

/// The tally of so many turns.
fn tallied<K: Keeper>(
    alloc: Global,
    desk: &mut Desk,
    name: &Name,
    seed: u64,
    count: u64,
    keeper: &mut K,
) -> Result<Tally, NoMemory>
    requires name { name.now ≡ subject }
    requires count { count ≤ 100000 }
    ensures turns { Tallies seed count
        (works None (K.tables keeper.old) (K.faults keeper.old)) (K.is_clean keeper.new)
        (works None (K.tables keeper.new) (K.faults keeper.new)) result }
    ensures keeper_faults { K.faults keeper.old ≤ K.faults keeper.new }
    ensures keeper_clean { K.is_clean keeper.new → K.is_clean keeper.old }
    ensures keeper_path { K.keeper_path keeper.new ≡ K.keeper_path keeper.old }
{
    let mut generator = Generator::new(seed);
    let mut tally = Tally::new();
    for n in 0..count {
        let command = generator.command(name);
        tally = counted(alloc, desk, command, name, n + 1, tally, keeper)?;
    }
    Ok(tally)
}

/// The tally with the n-th turn, and with the question that follows it, if one does.
fn counted<K: Keeper>(
    alloc: Global,
    desk: &mut Desk,
    command: Command,
    name: &Name,
    n: u64,
    tally: Tally,
    keeper: &mut K,
) -> Result<Tally, NoMemory>
    requires name { name.now ≡ subject }
    requires n { (1 ≤ n) × (n ≤ 100000) }
    requires tally { IsSmall (n - 1) tally }
    ensures turn { Counts
        (works None (K.tables keeper.old) (K.faults keeper.old)) (K.is_clean keeper.new)
        (works None (K.tables keeper.new) (K.faults keeper.new))
        (asked Turning command ∷ question (n % 16)) tally result }
    ensures small { IfOk result (IsSmall n) }
    ensures keeper_faults { K.faults keeper.old ≤ K.faults keeper.new }
    ensures keeper_clean { K.is_clean keeper.new → K.is_clean keeper.old }
    ensures keeper_path { K.keeper_path keeper.new ≡ K.keeper_path keeper.old }
{
    let tally = turned(alloc, desk, command, tally, keeper)?;
    if n % 16 == 0 {
        questioned(alloc, desk, name, tally, keeper)
    } else {
        Ok(tally)
    }
}

/// The tally with one more turn.
fn turned<K: Keeper>(
    alloc: Global,
    desk: &mut Desk,
    command: Command,
    tally: Tally,
    keeper: &mut K,
) -> Result<Tally, NoMemory>
    requires { IsSmall 100000 tally }
    ensures turn { Learns (λ r next. next ≡ plus tally (of_turn r))
        (works None (K.tables keeper.old) (K.faults keeper.old)) (K.is_clean keeper.new)
        (works None (K.tables keeper.new) (K.faults keeper.new))
        (asked Turning command) result }
    ensures more { IfOk result (IsTurnMore tally) }
    ensures keeper_faults { K.faults keeper.old ≤ K.faults keeper.new }
    ensures keeper_clean { K.is_clean keeper.new → K.is_clean keeper.old }
    ensures keeper_path { K.keeper_path keeper.new ≡ K.keeper_path keeper.old }
{
    let reply = reply_to(alloc, desk, command, keeper)?;
    Ok(tally.with_turn(&reply))
}

/// The tally with one more question for the faults.
fn questioned<K: Keeper>(
    alloc: Global,
    desk: &mut Desk,
    name: &Name,
    tally: Tally,
    keeper: &mut K,
) -> Result<Tally, NoMemory>
    requires name { name.now ≡ subject }
    requires tally { IsSmall 100000 tally }
    ensures question { Learns (λ r next. next ≡ plus tally (of_question r))
        (works None (K.tables keeper.old) (K.faults keeper.old)) (K.is_clean keeper.new)
        (works None (K.tables keeper.new) (K.faults keeper.new))
        (asked Asking (command.Faults subject)) result }
    ensures more { IfOk result (IsQuestionMore tally) }
    ensures keeper_faults { K.faults keeper.old ≤ K.faults keeper.new }
    ensures keeper_clean { K.is_clean keeper.new → K.is_clean keeper.old }
    ensures keeper_path { K.keeper_path keeper.new ≡ K.keeper_path keeper.old }
{
    let faults = Command::Faults { name: name.copy() };
    let reply = reply_to(alloc, desk, faults, keeper)?;
    Ok(tally.with_question(&reply))
}

/// What the last three replies tell.
fn closed<K: Keeper>(
    alloc: Global,
    desk: &mut Desk,
    name: &Name,
    keeper: &mut K,
) -> Result<Last, NoMemory>
    requires { name.now ≡ subject }
    ensures closes { Closes
        (works None (K.tables keeper.old) (K.faults keeper.old)) (K.is_clean keeper.new)
        (works None (K.tables keeper.new) (K.faults keeper.new)) result }
    ensures keeper_faults { K.faults keeper.old ≤ K.faults keeper.new }
    ensures keeper_clean { K.is_clean keeper.new → K.is_clean keeper.old }
    ensures keeper_path { K.keeper_path keeper.new ≡ K.keeper_path keeper.old }
{
    let creases = creases(alloc, desk, name, keeper)?;
    let sizes = sizes(alloc, desk, name, keeper)?;
    let faults = faults(alloc, desk, name, keeper)?;
    Ok(Last {
        creases,
        sizes,
        faults,
    })
}

/// The number of creases, where it is told.
fn creases<K: Keeper>(
    alloc: Global,
    desk: &mut Desk,
    name: &Name,
    keeper: &mut K,
) -> Result<Option<u64>, NoMemory>
    requires { name.now ≡ subject }
    ensures creases { Learns (λ r told. told ≡ creases_of r)
        (works None (K.tables keeper.old) (K.faults keeper.old)) (K.is_clean keeper.new)
        (works None (K.tables keeper.new) (K.faults keeper.new))
        (asked Framing (command.PatternText subject)) result }
    ensures keeper_faults { K.faults keeper.old ≤ K.faults keeper.new }
    ensures keeper_clean { K.is_clean keeper.new → K.is_clean keeper.old }
    ensures keeper_path { K.keeper_path keeper.new ≡ K.keeper_path keeper.old }
{
    let pattern = Command::PatternText { name: name.copy() };
    let reply = reply_to(alloc, desk, pattern, keeper)?;
    Ok(creases_told(&reply))
}

/// The sizes of the subdivision, where they are told.
fn sizes<K: Keeper>(
    alloc: Global,
    desk: &mut Desk,
    name: &Name,
    keeper: &mut K,
) -> Result<Option<Sizes>, NoMemory>
    requires { name.now ≡ subject }
    ensures sizes { Learns (λ r told. told ≡ sizes_of r)
        (works None (K.tables keeper.old) (K.faults keeper.old)) (K.is_clean keeper.new)
        (works None (K.tables keeper.new) (K.faults keeper.new))
        (asked Framing (command.Show subject)) result }
    ensures keeper_faults { K.faults keeper.old ≤ K.faults keeper.new }
    ensures keeper_clean { K.is_clean keeper.new → K.is_clean keeper.old }
    ensures keeper_path { K.keeper_path keeper.new ≡ K.keeper_path keeper.old }
{
    let show = Command::Show { name: name.copy() };
    let reply = reply_to(alloc, desk, show, keeper)?;
    Ok(sizes_told(&reply))
}

/// The number of faults, where it is told.
fn faults<K: Keeper>(
    alloc: Global,
    desk: &mut Desk,
    name: &Name,
    keeper: &mut K,
) -> Result<Option<u64>, NoMemory>
    requires { name.now ≡ subject }
    ensures faults { Learns (λ r told. told ≡ faults_of r)
        (works None (K.tables keeper.old) (K.faults keeper.old)) (K.is_clean keeper.new)
        (works None (K.tables keeper.new) (K.faults keeper.new))
        (asked Framing (command.Faults subject)) result }
    ensures keeper_faults { K.faults keeper.old ≤ K.faults keeper.new }
    ensures keeper_clean { K.is_clean keeper.new → K.is_clean keeper.old }
    ensures keeper_path { K.keeper_path keeper.new ≡ K.keeper_path keeper.old }
{
    let faults = Command::Faults { name: name.copy() };
    let reply = reply_to(alloc, desk, faults, keeper)?;
    Ok(faults_told(&reply))
}

/// The reply to a command.
fn reply_to<K: Keeper>(
    alloc: Global,
    desk: &mut Desk,
    command: Command,
    keeper: &mut K,
) -> Result<Reply, NoMemory>
    ensures reply { (kind : Kind) → Learns (λ r told. told ≡ r)
        (works None (K.tables keeper.old) (K.faults keeper.old)) (K.is_clean keeper.new)
        (works None (K.tables keeper.new) (K.faults keeper.new))
        (asked kind command) result }
    ensures keeper_faults { K.faults keeper.old ≤ K.faults keeper.new }
    ensures keeper_clean { K.is_clean keeper.new → K.is_clean keeper.old }
    ensures keeper_path { K.keeper_path keeper.new ≡ K.keeper_path keeper.old }
{
    desk.act(alloc, keeper, &command)
}
