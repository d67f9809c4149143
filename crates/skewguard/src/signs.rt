//! A sign of life: on a terminal, a line that says what is being done and for how long, while work takes long.
//!
//! A thread of its own brings the line up to date each second ([`Sign::show`]), on standard error. All else that is
//! written goes through a [`Beside`], so that the line is wiped before anything comes to a terminal. Of what is printed
//! no byte depends on the line. Where no thread shows the line there is none, and a [`Beside`] only writes.

ghost use Rattle.std.specs.Prelude.{◌≡◌};

use std::io;
use std::io::{IsTerminal, Write};
use std::sync::atomic::{AtomicU64, Ordering};
use std::sync::{Condvar, Mutex, Wait};
use std::time::{Clock, Duration, Instant};

/// What is done with texts that were read.
#[derive(Clone, Copy)]
pub struct Task {
    /// Up to the first byte that is printed.
    pub before: &'static str,
    /// From then on.
    pub after: &'static str,
}

/// A sign of life.
#[derive(Drop)]
pub struct Sign {
    /// How many bytes were read; 0 until all are.
    bytes: AtomicU64,
    line: Mutex<Line>,
    ended: Condvar,
}

/// The line, which one thread at a time may touch.
#[derive(Drop)]
struct Line {
    stands: bool,
    has_printed: bool,
    is_over: bool,
}

impl Sign {
    /// No line yet, and nothing is read.
    pub fn new() -> Sign {
        Sign {
            bytes: AtomicU64::new(0),
            line: Mutex::new(Line {
                stands: false,
                has_printed: false,
                is_over: false,
            }),
            ended: Condvar::new(),
        }
    }

    /// A writer beside the line.
    pub fn beside<'a, R, W: IsTerminal>(&'a self, rt: &'a R, to: W) -> Beside<'a, R, W>
        ensures { result.to ≡ to }
    {
        let is_terminal = to.is_terminal();
        Beside {
            rt,
            sign: self,
            to,
            is_terminal,
        }
    }

    /// Takes down that all texts were read, of so many bytes.
    pub fn take_down(&self, bytes: usize) {
        self.bytes.store(bytes as u64, Ordering::SeqCst);
    }

    /// Brings the line up to date each second, until it is over or can't be written.
    pub fn show<R: Clock + Eprint + Wait>(&self, rt: &R, task: Task) {
        let Ok(start) = Instant::now(rt) else {
            return;
        };
        let second = Duration::from_secs(1);
        for _ in rt.forever() {
            let line = self.line.lock(rt);
            let (mut line, _) = self
                .ended
                .wait_timeout_while(rt, line, second, |line| !line.is_over);
            let Ok(passed) = start.elapsed(rt) else {
                return;
            };
            if line.is_over {
                return;
            }
            line.stands = true;
            let printed = line.has_printed;
            if self
                .write_line(rt, task, printed, passed.as_secs())
                .is_err()
            {
                return;
            }
        }
    }

    /// Writes the line over the one that stands there.
    fn write_line<R: Eprint>(
        &self,
        rt: &R,
        task: Task,
        has_printed: bool,
        seconds: u64,
    ) -> io::Result<()> {
        let Task { before, after } = task;
        let megabytes = self.bytes.load(Ordering::SeqCst).div_ceil(1_000_000);
        if has_printed {
            eprint!(rt; "\r{after}, {seconds} s\x1b[K")
        } else if megabytes > 0 {
            eprint!(rt; "\r{before} {megabytes} MB, {seconds} s\x1b[K")
        } else {
            eprint!(rt; "\rreading, {seconds} s\x1b[K")
        }
    }

    /// Ends the line.
    pub fn end<R: Eprint + Wait>(&self, rt: &R) {
        self.line.lock(rt).end(rt);
        self.ended.notify_one();
    }
}

impl Line {
    /// Wipes the line, which does not come again.
    fn end<R: Eprint>(&mut self, rt: &R) {
        if self.stands {
            let _ = eprint!(rt; "\r\x1b[K");
        }
        self.stands = false;
        self.is_over = true;
    }
}

/// A writer beside the line, which does not change while a write takes its time.
#[derive(Drop)]
pub struct Beside<'a, R, W> {
    rt: &'a R,
    sign: &'a Sign,
    to: W,
    /// Whether what is written comes to a terminal: then it shows by itself that the work goes on, and ends the line.
    pub is_terminal: bool,
}

impl<'a, R: Eprint + Wait, W: Write> Write for Beside<'a, R, W> {
    ghost contents = { λ beside. W.contents beside.to };

    fn write(&mut self, buf: &[u8]) -> io::Result<usize> {
        let mut line = self.sign.line.lock(self.rt);
        line.has_printed = true;
        if self.is_terminal {
            line.end(self.rt);
        }
        self.to.write(buf)
    }

    fn flush(&mut self) -> io::Result<()> {
        self.to.flush()
    }
}
