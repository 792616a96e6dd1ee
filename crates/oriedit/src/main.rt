//! The program: reads the words of its command line, does what they ask, and ends with a status.
#![tactic(auto)]

mod answering;
mod answers;
mod attaching;
#[cfg(test)]
mod check_tests;
mod checking;
mod connection;
mod cutting;
mod due;
mod early;
#[cfg(test)]
mod generate_tests;
mod generating;
#[cfg(test)]
mod keep_tests;
mod laws;
mod program;
mod reading;
mod reply;
#[cfg(test)]
mod script_tests;
mod scripting;
#[cfg(test)]
mod serve_tests;
mod serving;
mod status;
mod statuses;
mod summary;
mod tally;
#[cfg(test)]
mod tests;
mod unfinished;

pub use connection::{Served, answer_one};
pub use laws::{check_text_is_one, cut_text_is_one, units_are_one};
use ports::{NoMemory, StdSink, StdSource, TcpDoor};
pub use program::run;
use projects::MemKeeper;
pub use scripting::script;
use sqltold::SqlKeeper;
pub use status::Status;
use std::alloc::Global;
use std::env;
use std::io::ErrorKind;
use std::process::ExitCode;
use words::keep_wanted;

fn main(rt: HostRuntime) -> ExitCode {
    let alloc = rt.alloc();
    let Ok(words) = given_words(&rt, alloc) else {
        return ExitCode::from(Status::NoMemory.number());
    };
    let status = if keep_wanted(&words) {
        over_file(&rt, alloc, &words)
    } else {
        over_memory(&rt, alloc, &words)
    };
    ExitCode::from(status.number())
}

/// Runs over projects in a file.
fn over_file(rt: &HostRuntime, alloc: Global, words: &[String]) -> Status {
    let mut source = StdSource::new(rt);
    let mut sink = StdSink::new(rt);
    let mut keeper = SqlKeeper::new(rt);
    let mut door = TcpDoor::new(rt);
    run(alloc, words, &mut source, &mut sink, &mut keeper, &mut door)
}

/// Runs over projects in memory.
fn over_memory(rt: &HostRuntime, alloc: Global, words: &[String]) -> Status {
    let mut source = StdSource::new(rt);
    let mut sink = StdSink::new(rt);
    let mut keeper = MemKeeper::new(alloc, Vec::new(alloc), Vec::new(alloc));
    let mut door = TcpDoor::new(rt);
    run(alloc, words, &mut source, &mut sink, &mut keeper, &mut door)
}

/// The words after the program's name. Where one of them is not UTF-8 there are none here, and so
/// no command's.
fn given_words(rt: &HostRuntime, alloc: Global) -> Result<Vec<String>, NoMemory> {
    match env::args(rt) {
        Ok(given) => Ok(given.skip(1).collect(alloc)?),
        Err(error) => {
            if error.kind() == ErrorKind::OutOfMemory {
                return Err(NoMemory);
            }
            Ok(Vec::new(alloc))
        }
    }
}
