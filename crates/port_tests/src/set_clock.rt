//! A clock that shows the times that a test gives it.
use std::cell::Cell;
use std::io;
use std::io::ErrorKind;
use std::time::{Clock, Duration};

/// Shows these milliseconds, one by each look, and can't be read behind the last.
#[derive(Drop)]
pub struct SetClock<'a> {
    millis: &'a [u64],
    looks: Cell<usize>,
}

impl<'a> SetClock<'a> {
    pub fn new(millis: &'a [u64]) -> Self {
        SetClock {
            millis,
            looks: Cell::new(0),
        }
    }
}

impl Clock for SetClock<'_> {
    fn monotonic(&self) -> io::Result<Duration> {
        let look = self.looks.get();
        self.looks.set(look.saturating_add(1));
        match self.millis.get(look) {
            Some(millis) => Ok(Duration::from_millis(*millis)),
            None => Err(ErrorKind::Other.into()),
        }
    }

    fn since_1970(&self) -> io::Result<Duration> {
        Err(ErrorKind::Unsupported.into())
    }
}
