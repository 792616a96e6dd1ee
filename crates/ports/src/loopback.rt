//! Connections over TCP on this machine alone. They tell nothing of their bytes.
ghost use Rattle.std.specs.Prelude.{◌≡◌, None, refl};
ghost use Rattle.ports.specs.Streams.{Beside};

use crate::{Door, Failed, Sink, Source, Wire};
use std::io::{self, ErrorKind, Read, Write};
use std::net::{IpAddr, Ipv4Addr, Net, OpenListener, Shutdown, SocketAddr, TcpListener, TcpStream};
use std::time::Duration;

/// One TCP connection. It tells nothing of its bytes, and counts each call that failed. A call that
/// waits longer than 30 seconds for the other side fails.
#[derive(Drop)]
pub struct TcpEnd {
    stream: TcpStream,
    take_faults: u64,
    put_faults: u64,
}

/// The connection as an end, once its calls have their limit of time.
fn end_of(stream: TcpStream) -> Option<TcpEnd> {
    let limit = Some(Duration::from_secs(30));
    stream.set_read_timeout(limit).ok()?;
    stream.set_write_timeout(limit).ok()?;
    Some(TcpEnd {
        stream,
        take_faults: 0,
        put_faults: 0,
    })
}

/// Says that no more comes, and closes the connection. Where the other side has sent more than was
/// taken, it is read and forgotten first, at most 8 MiB and for as long as no read waits for a second:
/// a connection that is closed over unread bytes may lose what was put (RFC 9112, section 9.6).
fn let_go(mut stream: TcpStream) -> io::Result<()> {
    let mut room = [0u8; 4096];
    stream.shutdown(Shutdown::Write)?;
    stream.set_nonblocking(true)?;
    if stream.read(&mut room)? == 0 {
        return Ok(());
    }
    stream.set_nonblocking(false)?;
    stream.set_read_timeout(Some(Duration::from_secs(1)))?;
    for _turn in 0..2048 {
        if stream.read(&mut room)? == 0 {
            break;
        }
    }
    Ok(())
}

impl Source for TcpEnd {
    ghost left = { λ _. None };

    ghost faults = { λ s. s.take_faults };

    ghost aside = { λ s. Beside s.put_faults None };

    fn take(&mut self, buf: &mut [u8]) -> Result<usize, Failed> {
        for _turn in 0..u64::MAX {
            match self.stream.read(buf) {
                Ok(count) => return Ok(count),
                Err(error) => {
                    if error.kind() != ErrorKind::Interrupted {
                        break;
                    }
                }
            }
        }
        self.take_faults = self.take_faults.saturating_add(1);
        Err(Failed)
    }
}

impl Sink for TcpEnd {
    ghost held = { λ _. None };

    ghost faults = { λ s. s.put_faults };

    ghost aside = { λ s. Beside s.take_faults None };

    fn put(&mut self, piece: &[u8]) -> Result<(), Failed> {
        let mut written = 0;
        for _turn in 0..u64::MAX {
            if written == piece.len() {
                return Ok(());
            }
            match self.stream.write(&piece[written..]) {
                Ok(0) => break,
                Ok(count) => written += count,
                Err(error) => {
                    if error.kind() != ErrorKind::Interrupted {
                        break;
                    }
                }
            }
        }
        self.put_faults = self.put_faults.saturating_add(1);
        Err(Failed)
    }
}

impl Wire for TcpEnd {
    ghost beside_source = { λ _. refl };

    ghost beside_sink = { λ _. refl };
}

/// Connections to 127.0.0.1. It tells nothing of its ends, and counts each call that failed.
#[derive(Drop)]
pub struct TcpDoor<'a> {
    rt: &'a HostRuntime,
    listener: Option<TcpListener>,
    port: Option<u16>,
    faults: u64,
}

impl<'a> TcpDoor<'a> {
    /// A door that does not listen yet, with no fault so far.
    pub fn new(rt: &'a HostRuntime) -> TcpDoor<'a>
        ensures port { ⟦<TcpDoor<'a> as Door>⟧.door_port result ≡ None }
        ensures faults { ⟦<TcpDoor<'a> as Door>⟧.door_faults result ≡ 0 }
    {
        TcpDoor {
            rt,
            listener: None,
            port: None,
            faults: 0,
        }
    }

    /// The next connection, with its limit of time. A call that was interrupted, or whose other side
    /// went away before it was taken, is made again.
    fn accepted(&self) -> Option<TcpEnd> {
        let listener = self.listener.as_ref()?;
        for _turn in 0..u64::MAX {
            match listener.accept() {
                Ok((stream, _)) => return end_of(stream),
                Err(error) => {
                    let kind = error.kind();
                    if kind != ErrorKind::Interrupted && kind != ErrorKind::ConnectionAborted {
                        return None;
                    }
                }
            }
        }
        None
    }
}

impl<'a> Door for TcpDoor<'a> {
    type End = TcpEnd;

    ghost door_port = { λ s. s.port };

    ghost ends = { λ _. None };

    ghost door_faults = { λ s. s.faults };

    fn listen(&mut self, port: u16) -> Result<(), Failed> {
        self.port = Some(port);
        let address = SocketAddr::new(IpAddr::V4(Ipv4Addr::LOCALHOST), port);
        match self.rt.bind(address) {
            Ok(listener) => {
                self.listener = Some(listener);
                Ok(())
            }
            Err(_) => {
                self.faults = self.faults.saturating_add(1);
                Err(Failed)
            }
        }
    }

    fn next(&mut self) -> Result<Option<TcpEnd>, Failed> {
        match self.accepted() {
            Some(end) => Ok(Some(end)),
            None => {
                self.faults = self.faults.saturating_add(1);
                Err(Failed)
            }
        }
    }

    fn finish(&mut self, end: TcpEnd) {
        if end.take_faults == 0 && end.put_faults == 0 {
            let _ = let_go(end.stream);
        }
    }
}
