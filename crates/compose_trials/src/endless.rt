//! A stream of as many frames as are answered, and one more.
use crate::failure::Failure;
use crate::input::start_service;
use crate::output::print_line;
use crate::serving::{print_end, serve};
use compose_serve::Device;
use compose_service::Service;
use compose_tree::PackedTable;
use std::io;
use std::io::{Read, Write};

/// The length in bytes of an Ask of session 0: its kind, and zeros.
const FRAME: usize = 9;

/// The kind of an Ask.
const ASK: u8 = 6;

/// The refusal of the Ask: there is no such session.
const REPLY: [u8; 11] = [0xff, 0, 0, 0, 0, 0, 0, 0, 2, 0, 2];

/// The number of frames in the stream.
const FRAMES: usize = 16_777_217;

/// A reader that repeats one frame, and takes no memory.
#[derive(Drop)]
struct Repeated {
    left: usize,
}

impl Read for Repeated {
    fn read(&mut self, buf: &mut [u8]) -> io::Result<usize> {
        let whole_frames = buf.len() - buf.len() % FRAME;
        let count = whole_frames.min(self.left);
        for (index, byte) in buf.iter_mut().enumerate() {
            *byte = if index % FRAME == 0 { ASK } else { 0 };
        }
        self.left -= count;
        Ok(count)
    }
}

/// A writer that counts the replies, and those that differ from the expected one.
#[derive(Drop)]
struct Counted {
    replies: u64,
    others: u64,
}

impl Write for Counted {
    fn write(&mut self, buf: &[u8]) -> io::Result<usize> {
        self.replies = self.replies.saturating_add(1);
        if buf != REPLY.as_slice() {
            self.others = self.others.saturating_add(1);
        }
        Ok(buf.len())
    }

    fn flush(&mut self) -> io::Result<()> {
        Ok(())
    }
}

/// Serves the frames, and prints how the stream ends, the number of replies that were written, and
/// the number of those that differ from the expected one. Errors: see [`Failure`].
pub fn serve_endless(rt: &HostRuntime) -> Result<(), Failure> {
    let mut service = start_service(rt)?;
    serve_frames(rt, &mut service)
}

/// Does the same with this service.
fn serve_frames(rt: &HostRuntime, service: &mut Service<PackedTable>) -> Result<(), Failure> {
    let mut reader = Device::new(Repeated {
        left: FRAMES * FRAME,
    });
    let mut writer = Counted {
        replies: 0,
        others: 0,
    };
    let ended = serve(rt, service, &mut reader, &mut Device::new(&mut writer));
    print_end(rt, ended)?;
    print_line(rt, writer.replies)?;
    print_line(rt, writer.others)
}
