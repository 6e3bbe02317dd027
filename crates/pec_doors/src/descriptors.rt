use std::io;
use std::os::fd::{AsRawFd, OwnedFd};

// Standard input, output and error have the descriptors below this one.
const BEHIND_THE_STREAMS: i32 = 3;

/// Where a standard stream was closed as the run began, a socket gets its descriptor, and what is meant for the stream
/// would be sent to a client. So it gets another one.
pub(crate) fn apart_from_the_streams(socket: OwnedFd) -> io::Result<OwnedFd> {
    if socket.as_raw_fd() >= BEHIND_THE_STREAMS {
        return Ok(socket);
    }
    socket.try_clone()
}
