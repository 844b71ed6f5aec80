// The network and the clock of the stage.
use super::{Stage, StagedFile};
use std::io;
use std::net::{Net, OpenListener, OpenStream, Shutdown, SocketAddr};
use std::os::fd::{AsRawFd, RawFd};
use std::rc::Rc;
use std::time::{Clock, Duration};

// A port that the stage listens on.
#[derive(Drop)]
pub struct StagedPort {
    book: Rc<super::Book>,
    address: SocketAddr,
}

impl Net for Stage {
    type Stream = StagedFile;

    type Listener = StagedPort;

    fn bind(&self, address: SocketAddr) -> io::Result<StagedPort> {
        self.book.call_at("bind", address)?;
        Ok(StagedPort {
            book: self.book.clone()?,
            address,
        })
    }

    fn connect(&self, _address: SocketAddr) -> io::Result<StagedFile> {
        self.book.call("connect")?;
        Ok(StagedFile {
            book: self.book.clone()?,
            at: 0,
        })
    }
}

impl OpenListener for StagedPort {
    type Stream = StagedFile;

    fn accept(&self) -> io::Result<(StagedFile, SocketAddr)> {
        self.book.call("accept")?;
        let peer = StagedFile {
            book: self.book.clone()?,
            at: 0,
        };
        Ok((peer, self.address))
    }
}

impl OpenStream for StagedFile {
    fn shutdown(&self, how: Shutdown) -> io::Result<()> {
        self.book.call(match how {
            Shutdown::Read => "shut reading",
            Shutdown::Write => "shut writing",
            Shutdown::Both => "shut both",
        })
    }

    fn set_read_timeout(&self, limit: Option<Duration>) -> io::Result<()> {
        self.book.limit("read limit", limit)
    }

    fn set_write_timeout(&self, limit: Option<Duration>) -> io::Result<()> {
        self.book.limit("write limit", limit)
    }
}

impl super::Book {
    fn limit(&self, what: &str, limit: Option<Duration>) -> io::Result<()> {
        let millis = match limit {
            Some(limit) => limit.as_millis(),
            None => 0,
        };
        self.call_at(what, millis)
    }
}

impl AsRawFd for StagedFile {
    fn as_raw_fd(&self) -> RawFd {
        -1
    }
}

impl AsRawFd for StagedPort {
    fn as_raw_fd(&self) -> RawFd {
        -1
    }
}

impl Clock for Stage {
    fn monotonic(&self) -> io::Result<Duration> {
        self.book.call("clock")?;
        let now = self.book.clock.get();
        self.book.clock.set(now.saturating_add(self.book.tick));
        Ok(Duration::from_millis(now))
    }

    fn since_1970(&self) -> io::Result<Duration> {
        self.monotonic()
    }

    fn sleep(&self, duration: Duration) {
        let _told = self.book.limit("rest", Some(duration));
    }
}
