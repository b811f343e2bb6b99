//! Levels of log lines.

ghost use Rattle.std.specs.Prelude.{◌≡◌};
ghost use Rattle.fwd_log.specs.Level.{label_of, is_written, rank};

/// How much a line matters.
#[derive(Clone, Copy, Debug, PartialEq, Eq)]
pub enum Level {
    Error,
    Warn,
    Info,
    Debug,
}

impl Level {
    /// Returns the word of a line: five bytes, so that lines are aligned.
    pub fn label(self) -> &'static [u8]
        ensures { result.now ≡ label_of self }
    {
        match self {
            Level::Error => b"error",
            Level::Warn => b" warn",
            Level::Info => b" info",
            Level::Debug => b"debug",
        }
    }

    fn rank(self) -> u8
        ensures { result ≡ rank self }
    {
        match self {
            Level::Error => 1,
            Level::Warn => 2,
            Level::Info => 3,
            Level::Debug => 4,
        }
    }

    /// Returns whether a log of this level writes a line. A log that is off writes none.
    pub fn is_written(self, log: Option<Level>) -> bool
        ensures { result ≡ is_written self log }
    {
        match log {
            Some(most) => self.rank() <= most.rank(),
            None => false,
        }
    }
}
