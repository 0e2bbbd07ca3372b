// A test of the command `serve` at a real door: an expression is answered over TCP.
use crate::running::words_of;
use handler_tests::joining::is_joined;
use io_edge::{MemorySink, MemorySource, NoGate};
use server_edge::{Door, Listen, Next, NoClock, SharedListener, TcpDoor};
use std::alloc::Global;
use std::io::{Read, Write};
use std::net::{Ipv4Addr, Net, Shutdown, TcpListener, TcpStream};
use std::sync::Wait;
use std::test::Fail;
use std::thread::{Threads, join};
use std::time::Clock as SystemClock;
use stream_commands::{DOORS, DoorRow, run_words};
use stream_handler::SessionEnd;
use tuple_values::{Bytes, Memory, Numbers, Sequence};

// A door that closes after so many connections, and doesn't tell them.
#[derive(Drop)]
struct Few<L: Door> {
    door: L,
    left: u64,
}

impl<L: Door> Door for Few<L> {
    type In = L::In;

    type Out = L::Out;

    type Note = L::Note;

    ghost use Rattle.std.specs.Prelude.{None};

    ghost told = { λ _. None };

    ghost faults = { λ d. L.faults d.door };

    ghost deaf = { λ d. L.deaf d.door };

    fn listen(&mut self, port: u16) -> Listen {
        self.door.listen(port)
    }

    fn next(&mut self) -> Next<L::In, L::Out> {
        if self.left == 0 {
            return Next::Closed;
        }
        self.left -= 1;
        self.door.next()
    }

    fn back(&mut self, input: L::In, output: L::Out, note: L::Note) {
        self.door.back(input, output, note);
    }
}

// A port at which nobody listens.
fn free_port<R: Net<Listener = TcpListener, Stream = TcpStream>>(rt: &R) -> Option<u16> {
    let listener = TcpListener::bind(rt, (Ipv4Addr::LOCALHOST, 0)).ok()?;
    Some(listener.local_addr().ok()?.port())
}

// Adds all bytes that come.
fn read_all(stream: &mut TcpStream, bytes: &mut Bytes) -> Option<()> {
    let mut room = [0u8; 512];
    for _ in 0..1_000 {
        let count = stream.read(&mut room).ok()?;
        if count == 0 {
            return Some(());
        }
        bytes.extend(&room[..count]).ok()?;
    }
    None
}

// Sends a request to a stream, and reads its reply.
fn exchange(stream: &mut TcpStream, request: &str, reply: &mut Bytes) -> Option<()> {
    stream.write_all(request.as_bytes()).ok()?;
    stream.shutdown(Shutdown::Write).ok()?;
    read_all(stream, reply)
}

// The same at a port, as soon as somebody listens there.
fn ask<R: Net<Listener = TcpListener, Stream = TcpStream>>(
    rt: &R,
    port: u16,
    request: &str,
    reply: &mut Bytes,
) -> Option<()> {
    for _ in 0..1_000_000 {
        if let Ok(mut stream) = TcpStream::connect(rt, (Ipv4Addr::LOCALHOST, port)) {
            return exchange(&mut stream, request, reply);
        }
    }
    None
}

// A row of real doors, of which the first gives one connection and the others none.
fn real_row<'a, R: Net<Listener = TcpListener, Stream = TcpStream> + Wait + Sync>(
    rt: &'a R,
    alloc: Global,
    shared: &'a SharedListener,
) -> Result<DoorRow<Few<TcpDoor<'a, R, SessionEnd>>>, Memory> {
    let mut doors = Sequence::new(alloc);
    for place in 0..DOORS {
        let left = if place == 0 { 1 } else { 0 };
        let door = TcpDoor::new(rt, shared);
        doors.push(Few { door, left })?;
    }
    DoorRow::of(doors).ok_or(Memory::OutOfMemory)
}

// The status of a server at the port that serves one connection.
fn serve<R: Net<Listener = TcpListener, Stream = TcpStream> + Threads + Wait + SystemClock + Sync>(
    rt: &R,
    alloc: Global,
    port: u16,
) -> Result<u8, Memory> {
    let shared = SharedListener::unbound();
    let mut row = real_row(rt, alloc, &shared)?;
    let line = format!(in alloc; "serve --port {port} --workers 1 --runners 1 c=1")?;
    let words = words_of(alloc, line.as_str())?;
    let mut input = MemorySource::new(Bytes::new(alloc), 1, Numbers::new(alloc));
    let mut output = MemorySink::new(alloc, Numbers::new(alloc));
    let mut errors = MemorySink::new(alloc, Numbers::new(alloc));
    Ok(run_words(
        rt,
        alloc,
        &words,
        &mut input,
        &mut output,
        &mut errors,
        &mut row,
        &NoClock,
        &NoGate,
    ))
}

const TUPLE: &str = "GET /solr/c/stream?expr=tuple(a%3D1,b%3D%22x%22) HTTP/1.1\r\nHost: h\r\n\r\n";

const TOLD: &str =
    "HTTP/1.1 200 OK\r\nContent-Type: application/json\r\nTransfer-Encoding: chunked\r\n\r\n\
     48\r\n{\"result-set\":{\"docs\":[{\"a\":1,\"b\":\"x\"},{\"EOF\":true,\"RESPONSE_TIME\":0}]}}\r\n0\r\n\r\n";

fn over_loopback<
    R: Net<Listener = TcpListener, Stream = TcpStream> + Threads + Wait + SystemClock + Sync,
>(rt: &R, alloc: Global, port: u16, reply: &mut Bytes) -> (Result<u8, Memory>, Option<()>) {
    join(
        rt,
        || serve(rt, alloc, port),
        || ask(rt, port, TUPLE, reply),
    )
}

#[test]
fn an_expression_is_answered_over_tcp(rt: HostRuntime) -> Result<(), Fail> {
    let alloc = rt.alloc();
    let port = free_port(&rt).ok_or("a port")?;
    let mut reply = Bytes::new(alloc);
    let (status, asked) = over_loopback(&rt, alloc, port, &mut reply);
    assert!(rt; status == Ok(0) && asked.is_some());
    assert!(rt; is_joined(reply.as_slice(), &[TOLD]));
    Ok(())
}
