// The real door: connections over TCP at the loopback address. It doesn't tell them.
ghost use Rattle.std.specs.Prelude.{◌≡◌, None};

use crate::tcp_ends::{TcpSink, TcpSource};
use crate::{Door, Listen, Next};
use io_edge::{Source, Taken};
use std::io::ErrorKind;
use std::marker::{Model, PhantomData};
use std::net::{Ipv4Addr, Net, TcpListener, TcpStream};
use std::sync::{Mutex, Wait};
use std::time::Duration;

// How many pieces are read away behind a connection's last reply, each of at most 4,096 bytes: more
// than a body may have. A socket that is closed with bytes unread resets the connection, and the
// other side may lose the reply.
const PIECES_READ_AWAY: u32 = 4_096;

// How many seconds one read or one write of a connection may wait for the other side. A worker stays
// with its connection, so clients that are silent or don't read would hold each worker for good.
const IDLE_SECONDS: u64 = 10;

/// What real doors share: the listener, once one of them has bound it.
#[derive(Drop)]
pub struct SharedListener {
    listener: Mutex<Option<TcpListener>>,
}

impl SharedListener {
    /// None is bound.
    pub fn unbound() -> SharedListener {
        SharedListener {
            listener: Mutex::new(None),
        }
    }
}

/// A real door. A contract sees how often it failed, and how often to listen.
#[derive(Drop)]
pub struct TcpDoor<'a, R, N> {
    rt: &'a R,
    shared: &'a SharedListener,
    listener: Option<TcpListener>,
    faults: u64,
    deaf: u64,
    note: PhantomData<N>,
}

impl<'a, R, N> Model for TcpDoor<'a, R, N> {
    ghost use Rattle.std.specs.Prelude.{ℕ};

    ghost Value = { ℕ × ℕ };

    ghost view = { λ d. (d.faults, d.deaf) };
}

impl<'a, R, N> TcpDoor<'a, R, N> {
    /// A door that doesn't listen yet. The first of those that share a listener binds it.
    pub fn new(rt: &'a R, shared: &'a SharedListener) -> Self
        ensures { result ≡ (0, 0) }
    {
        TcpDoor {
            rt,
            shared,
            listener: None,
            faults: 0,
            deaf: 0,
            note: PhantomData,
        }
    }
}

impl<R: Net<Listener = TcpListener, Stream = TcpStream> + Wait, N> TcpDoor<'_, R, N> {
    // The shared listener, which is bound at the port where it isn't yet.
    fn bound(&self, port: u16) -> Option<TcpListener> {
        let mut bound = self.shared.listener.lock(self.rt);
        if bound.is_none() {
            match TcpListener::bind(self.rt, (Ipv4Addr::LOCALHOST, port)) {
                Ok(listener) => *bound = Some(listener),
                Err(_) => return None,
            }
        }
        match &*bound {
            Some(listener) => listener.try_clone().ok(),
            None => None,
        }
    }
}

// Whether a failure is of one connection that went before it was accepted, and the next may come.
fn is_passing(kind: ErrorKind) -> bool {
    matches!(kind, ErrorKind::ConnectionAborted | ErrorKind::Interrupted)
}

// The next connection of a listener.
fn accepted(listener: &TcpListener) -> Option<TcpStream> {
    for stream in listener.incoming() {
        match stream {
            Ok(stream) => return Some(stream),
            Err(error) => {
                if !is_passing(error.kind()) {
                    return None;
                }
            }
        }
    }
    None
}

// The two ends of a stream, as two handles of one socket. That replies leave at once and that no read
// or write waits longer are asked of it; where they can't be had, it is served without.
fn ends(stream: TcpStream) -> Option<(TcpSource, TcpSink)> {
    let idle = Some(Duration::from_secs(IDLE_SECONDS));
    let _ = stream.set_nodelay(true);
    let _ = stream.set_read_timeout(idle);
    let _ = stream.set_write_timeout(idle);
    let other = stream.try_clone().ok()?;
    Some((TcpSource::new(stream), TcpSink::new(other)))
}

// The ends of the next connection of a listener, if there is one.
fn next_ends(listener: Option<&TcpListener>) -> Option<(TcpSource, TcpSink)> {
    ends(accepted(listener?)?)
}

// Reads away what still comes, up to a bound.
fn read_away(input: &mut TcpSource) {
    let mut room = [0u8; 4096];
    for _ in 0..PIECES_READ_AWAY {
        match input.take(&mut room) {
            Taken::Got(_) => {}
            Taken::Ended | Taken::Failed => return,
        }
    }
}

impl<R: Net<Listener = TcpListener, Stream = TcpStream> + Wait + Sync, N: Drop + Send> Door
    for TcpDoor<'_, R, N> {
    type In = TcpSource;

    type Out = TcpSink;

    type Note = N;

    ghost told = { λ _. None };

    ghost faults = { λ d. d.0 };

    ghost deaf = { λ d. d.1 };

    fn listen(&mut self, port: u16) -> Listen {
        match self.bound(port) {
            Some(listener) => {
                self.listener = Some(listener);
                Listen::Ready
            }
            None => {
                self.faults = self.faults.saturating_add(1);
                self.deaf = self.deaf.saturating_add(1);
                Listen::Failed
            }
        }
    }

    fn next(&mut self) -> Next<TcpSource, TcpSink> {
        match next_ends(self.listener.as_ref()) {
            Some((input, output)) => Next::Got { input, output },
            None => {
                self.faults = self.faults.saturating_add(1);
                Next::Failed
            }
        }
    }

    fn back(&mut self, input: TcpSource, output: TcpSink, note: N) {
        let mut input = input;
        output.finish();
        read_away(&mut input);
        drop(input);
        drop(output);
        drop(note);
    }
}
