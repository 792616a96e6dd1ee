//! Standard input as a source and standard output as a sink. They tell nothing of their bytes.
ghost use Rattle.std.specs.Prelude.{◌≡◌, None};
ghost use Rattle.ports.specs.Streams.{Alone};

use crate::{Failed, Sink, Source};
use std::io::{ErrorKind, Read, Stdin, Stdout, Write};
use std::marker::PhantomData;

/// Standard input. It tells nothing of what it holds, and counts each call that failed.
#[derive(Drop)]
pub struct StdSource<'a> {
    input: Stdin,
    runtime: PhantomData<&'a HostRuntime>,
    faults: u64,
}

impl<'a> StdSource<'a> {
    /// The standard input of the process, with no fault so far.
    pub fn new(rt: &'a HostRuntime) -> StdSource<'a>
        ensures { ⟦<StdSource<'a> as Source>⟧.faults result ≡ 0 }
    {
        StdSource {
            input: rt.stdin(),
            runtime: PhantomData,
            faults: 0,
        }
    }
}

impl<'a> Source for StdSource<'a> {
    ghost left = { λ _. None };

    ghost faults = { λ s. s.faults };

    ghost aside = { λ _. Alone };

    fn take(&mut self, buf: &mut [u8]) -> Result<usize, Failed> {
        for _turn in 0..u64::MAX {
            match self.input.read(buf) {
                Ok(count) => return Ok(count),
                Err(error) => {
                    if error.kind() != ErrorKind::Interrupted {
                        break;
                    }
                }
            }
        }
        self.faults = self.faults.saturating_add(1);
        Err(Failed)
    }
}

/// Standard output. It tells nothing of what it holds, and counts each call that failed.
#[derive(Drop)]
pub struct StdSink<'a> {
    output: Stdout,
    runtime: PhantomData<&'a HostRuntime>,
    faults: u64,
}

impl<'a> StdSink<'a> {
    /// The standard output of the process, with no fault so far.
    pub fn new(rt: &'a HostRuntime) -> StdSink<'a>
        ensures { ⟦<StdSink<'a> as Sink>⟧.faults result ≡ 0 }
    {
        StdSink {
            output: rt.stdout(),
            runtime: PhantomData,
            faults: 0,
        }
    }
}

impl<'a> Sink for StdSink<'a> {
    ghost held = { λ _. None };

    ghost faults = { λ s. s.faults };

    ghost aside = { λ _. Alone };

    fn put(&mut self, piece: &[u8]) -> Result<(), Failed> {
        let mut written = 0;
        for _turn in 0..u64::MAX {
            if written == piece.len() {
                return Ok(());
            }
            match self.output.write(&piece[written..]) {
                Ok(0) => break,
                Ok(count) => written += count,
                Err(error) => {
                    if error.kind() != ErrorKind::Interrupted {
                        break;
                    }
                }
            }
        }
        self.faults = self.faults.saturating_add(1);
        Err(Failed)
    }
}
