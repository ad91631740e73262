//! The port, and what is known of those who come to it.
use connections::PLACES;
use mio::net::{TcpListener, TcpStream};
use mio::{Events, Interest, Poll, Token};
use std::io;
use std::io::ErrorKind;
use std::net::{Ipv4Addr, SocketAddr, SocketAddrV4};
use std::time::{Duration, Instant};

/// The listener's token: those of the clients are their places.
pub const LISTENER: Token = Token(PLACES);

// The system's numbers for a process, and a machine, that has as many files open as it may.
const NO_FILE_IN_PROCESS: i32 = 24;

const NO_FILE_IN_SYSTEM: i32 = 23;

/// What is known of clients that come.
#[derive(Clone, Copy, PartialEq, Eq)]
pub(crate) enum Door {
    /// They may wait.
    Open,
    /// None waits, and the system tells when one does.
    Quiet,
    /// There is no file left for one, and the system tells whether one waits.
    NoFile,
    /// They can't be let in. It is tried again at the next tick.
    Shut,
}

/// What the system opened: the listener, and the poll that names ready clients, with the instant of its last answer.
#[derive(Drop)]
pub struct Opened {
    pub(crate) poll: Poll,
    listener: TcpListener,
    pub(crate) now: Instant,
}

impl Opened {
    /// Opens the port `port` of the loopback address. Fails if the system doesn't.
    pub fn on(rt: &HostRuntime, port: u16) -> io::Result<Opened> {
        let address = SocketAddr::V4(SocketAddrV4::new(Ipv4Addr::LOCALHOST, port));
        let mut listener = TcpListener::bind(rt, address)?;
        let poll = Poll::new(rt)?;
        poll.registry()
            .register(&mut listener, LISTENER, Interest::READABLE)?;
        let now = Instant::now(rt)?;
        Ok(Opened {
            poll,
            listener,
            now,
        })
    }

    /// Waits until a client is ready, or for the time `patience`; for ever if that is `None`. `events` has the clients that
    /// are ready then, and `now` is the instant. Fails if the system doesn't wait.
    pub(crate) fn wait(
        &mut self,
        rt: &HostRuntime,
        events: &mut Events,
        patience: Option<Duration>,
    ) -> io::Result<()> {
        self.poll.poll(events, patience)?;
        if let Ok(now) = Instant::now(rt) {
            self.now = now;
        }
        Ok(())
    }

    /// The next client that waits. If none can be let in, the error is what is known of those that come; it ends no server.
    pub(crate) fn next_client(&mut self) -> Result<TcpStream, Door> {
        match self.listener.accept() {
            Ok((stream, _)) => Ok(stream),
            Err(e) => Err(self.door_after(&e)),
        }
    }

    // What is known of clients that come, after one could not be let in.
    fn door_after(&mut self, error: &io::Error) -> Door {
        if error.kind() == ErrorKind::WouldBlock {
            return Door::Quiet;
        }
        if !is_no_socket_file(error) {
            return Door::Shut;
        }
        // (a new interest has the system tell whether somebody waits at all)
        let asked = self
            .poll
            .registry()
            .reregister(&mut self.listener, LISTENER, Interest::READABLE);
        match asked {
            Ok(()) => Door::NoFile,
            Err(_) => Door::Shut,
        }
    }
}

fn is_no_socket_file(error: &io::Error) -> bool {
    match error.raw_os_error() {
        Some(number) => number == NO_FILE_IN_PROCESS || number == NO_FILE_IN_SYSTEM,
        None => false,
    }
}
