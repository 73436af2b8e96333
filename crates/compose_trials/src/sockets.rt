//! Streams over a Unix socket inside this process.
use crate::failure::Failure;
use crate::input::{read_file, start_service};
use crate::output::print_bytes;
use crate::serving::{print_end, serve};
use compose_serve::{Device, ServeFault, StreamEnd};
use std::io::{Read, Write};
use std::net::Shutdown;
use std::os::unix::net::{UnixListener, UnixStream};

/// Serves the file `stream` over a socket file, and prints how the stream ends, and what comes
/// back. Errors: see [`Failure`].
///
/// The stream is sent before it is served, and its replies are read afterwards, so the socket must
/// have room for both.
pub fn try_all(rt: &HostRuntime) -> Result<(), Failure> {
    let stream = read_file(rt, "stream")?;
    let Ok(listener) = UnixListener::bind(rt, "socket") else {
        return Err(Failure::System);
    };
    let client = send(rt, &stream)?;
    let ended = serve_next(rt, &listener)?;
    print_replies(rt, ended, &client)
}

/// Prints how the stream ended, and what comes back.
fn print_replies(
    rt: &HostRuntime,
    ended: Result<StreamEnd, ServeFault>,
    client: &UnixStream,
) -> Result<(), Failure> {
    let replies = receive(rt, client)?;
    print_end(rt, ended)?;
    print_bytes(rt, &replies)
}

/// Connects, sends the stream, and ends its side.
fn send(rt: &HostRuntime, stream: &[u8]) -> Result<UnixStream, Failure> {
    let Ok(client) = UnixStream::connect(rt, "socket") else {
        return Err(Failure::System);
    };
    if (&client).write_all(stream).is_err() || client.shutdown(Shutdown::Write).is_err() {
        return Err(Failure::System);
    }
    Ok(client)
}

/// Serves the next connection, and closes it.
fn serve_next(
    rt: &HostRuntime,
    listener: &UnixListener,
) -> Result<Result<StreamEnd, ServeFault>, Failure> {
    match listener.accept() {
        Ok((stream, _)) => serve_stream(rt, &stream),
        Err(_) => Err(Failure::System),
    }
}

/// Serves a connection by a service of its own.
fn serve_stream(
    rt: &HostRuntime,
    stream: &UnixStream,
) -> Result<Result<StreamEnd, ServeFault>, Failure> {
    let mut service = start_service(rt)?;
    let mut reader = Device::new(stream);
    let mut writer = Device::new(stream);
    Ok(serve(rt, &mut service, &mut reader, &mut writer))
}

/// Reads all that comes back.
fn receive(rt: &HostRuntime, mut client: &UnixStream) -> Result<Vec<u8>, Failure> {
    let mut replies = Vec::new(rt.alloc());
    match client.read_to_end(&mut replies) {
        Ok(_) => Ok(replies),
        Err(_) => Err(Failure::System),
    }
}
