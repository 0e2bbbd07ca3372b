// Tests of server_edge: what doors in memory answer, what the real door does over the loopback address,
// and what clocks tell.
use io_edge::{MemorySink, MemorySource, Put, Sink, Source, Taken};
use server_edge::{
    Clock, Connection, Door, Listen, MemoryClock, MemoryDoor, Next, NoClock, SharedListener,
    SteadyClock, TcpDoor, since,
};
use std::alloc::Global;
use std::collections::VecDeque;
use std::io::{Read, Write};
use std::net::{Ipv4Addr, Net, Shutdown, TcpListener, TcpStream};
use std::sync::Wait;
use std::test::Fail;
use std::thread::{Threads, join};
use tuple_values::{Bytes, Memory, Numbers};

fn connection(alloc: Global, text: &str) -> Result<Connection, Memory> {
    let mut bytes = Bytes::new(alloc);
    bytes.extend(text.as_bytes())?;
    Ok(Connection {
        input: MemorySource::new(bytes, 4, Numbers::new(alloc)),
        output: MemorySink::new(alloc, Numbers::new(alloc)),
    })
}

fn numbers_of(alloc: Global, all: &[u64]) -> Result<Numbers, Memory> {
    let mut numbers = Numbers::new(alloc);
    for number in all {
        numbers.push(*number)?;
    }
    Ok(numbers)
}

// A door of two connections, whose first listening and second `next` fail.
fn door_of_two(alloc: Global) -> Result<MemoryDoor<u64>, Memory> {
    let mut waiting = VecDeque::new(alloc);
    waiting.push_back(connection(alloc, "abc")?)?;
    waiting.push_back(connection(alloc, "de")?)?;
    MemoryDoor::new(
        alloc,
        waiting,
        numbers_of(alloc, &[0])?,
        numbers_of(alloc, &[1])?,
    )
}

// Sends back one piece, and answers its length; 0 where none came, 100 where the other side failed.
fn echo<I: Source, O: Sink>(input: &mut I, output: &mut O) -> u64 {
    let mut room = [0u8; 16];
    match input.take(&mut room) {
        Taken::Got(n) => match output.put(&room[..n]) {
            Put::All => n as u64,
            Put::Failed => 100,
        },
        Taken::Ended => 0,
        Taken::Failed => 100,
    }
}

// What a door answered that was to give a connection, which is served and goes back: the length of the
// piece, 1,000 where none will come, 2,000 where it failed.
fn served<D: Door<Note = u64>>(door: &mut D) -> u64 {
    match door.next() {
        Next::Got {
            mut input,
            mut output,
        } => {
            let note = echo(&mut input, &mut output);
            door.back(input, output, note);
            note
        }
        Next::Closed => 1_000,
        Next::Failed => 2_000,
    }
}

// Whether the answers of the door of two are right.
fn answers_rightly(door: &mut MemoryDoor<u64>) -> bool {
    let heard = door.listen(1) == Listen::Failed && door.listen(1) == Listen::Ready;
    let first = served(door) == 3 && served(door) == 2_000;
    heard && first && served(door) == 2 && served(door) == 1_000
}

// Whether what came back is what was served, in order.
fn came_rightly(door: &MemoryDoor<u64>) -> bool {
    match door.came() {
        [first, second] => {
            first.note == 3
                && first.output.bytes() == b"abc".as_slice()
                && second.note == 2
                && second.output.bytes() == b"de".as_slice()
        }
        _ => false,
    }
}

#[test]
fn connections_come_back_in_their_order(rt: HostRuntime) -> Result<(), Fail> {
    let mut door = door_of_two(rt.alloc())?;
    assert!(rt; answers_rightly(&mut door));
    assert!(rt; came_rightly(&door));
    Ok(())
}

// A port at which nobody listens.
fn free_port<R: Net<Listener = TcpListener, Stream = TcpStream>>(rt: &R) -> Option<u16> {
    let listener = TcpListener::bind(rt, (Ipv4Addr::LOCALHOST, 0)).ok()?;
    Some(listener.local_addr().ok()?.port())
}

// Sends a text to a stream, and reads what comes back to the front of the room.
fn exchange(stream: &mut TcpStream, text: &str, room: &mut [u8]) -> Option<usize> {
    stream.write_all(text.as_bytes()).ok()?;
    stream.shutdown(Shutdown::Write).ok()?;
    stream.read(room).ok()
}

// The same at a port, as soon as somebody listens there.
fn ask<R: Net<Listener = TcpListener, Stream = TcpStream>>(
    rt: &R,
    port: u16,
    text: &str,
    room: &mut [u8],
) -> Option<usize> {
    for _ in 0..1_000_000 {
        if let Ok(mut stream) = TcpStream::connect(rt, (Ipv4Addr::LOCALHOST, port)) {
            return exchange(&mut stream, text, room);
        }
    }
    None
}

// Serves one connection of a real door, which listens at the port.
fn answer<R: Net<Listener = TcpListener, Stream = TcpStream> + Wait + Sync>(
    rt: &R,
    port: u16,
) -> u64 {
    let shared = SharedListener::unbound();
    let mut door: TcpDoor<'_, R, u64> = TcpDoor::new(rt, &shared);
    if door.listen(port) != Listen::Ready {
        return 3_000;
    }
    served(&mut door)
}

fn over_loopback<R: Net<Listener = TcpListener, Stream = TcpStream> + Threads + Wait + Sync>(
    rt: &R,
    port: u16,
    room: &mut [u8],
) -> (u64, Option<usize>) {
    join(rt, || answer(rt, port), || ask(rt, port, "hello", room))
}

#[test]
fn a_real_door_gives_a_connection(rt: HostRuntime) -> Result<(), Fail> {
    let port = free_port(&rt).ok_or("a port")?;
    let mut room = [0u8; 8];
    let (note, got) = over_loopback(&rt, port, &mut room);
    assert!(rt; note == 5 && got == Some(5));
    assert!(rt; &room[..5] == b"hello".as_slice());
    Ok(())
}

#[test]
fn a_door_that_does_not_listen_gives_nothing(rt: HostRuntime) -> Result<(), Fail> {
    let shared = SharedListener::unbound();
    let mut door: TcpDoor<'_, HostRuntime, u64> = TcpDoor::new(&rt, &shared);
    assert!(rt; served(&mut door) == 2_000);
    Ok(())
}

// The time that a clock tells, and how long ago a time was that it told.
fn told<C: Clock>(clock: &C) -> (u64, u64) {
    let start = clock.now_ms();
    (start, since(clock, start))
}

#[test]
fn clocks_tell_their_times(rt: HostRuntime) -> Result<(), Fail> {
    let clock = MemoryClock::new(numbers_of(rt.alloc(), &[5, 9, 7, 3])?);
    assert!(rt; told(&clock) == (5, 4) && told(&clock) == (7, 0) && told(&clock) == (3, 0));
    assert!(rt; told(&NoClock) == (0, 0));
    assert!(rt; told(&SteadyClock::new(&rt)).1 < 60_000);
    Ok(())
}
