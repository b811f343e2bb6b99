//! Regular expressions over bytes, in the syntax of the configuration.

use crate::bytes::crosses;
use crate::{Memory, Search, rewrite};
use regex::bytes::Regex;
use std::alloc::Global;
use thiserror::Error;

/// Why a pattern wasn't built.
#[derive(Clone, Copy, Debug, PartialEq, Eq, Error)]
pub enum PatternErr {
    /// The text isn't a pattern.
    #[error("not a pattern")]
    Refused,

    /// Memory is out, or the compiled pattern would exceed its size limit.
    #[error("out of memory")]
    Memory,
}

impl From<Memory> for PatternErr {
    ghost use Rattle.std.specs.Prelude.{◌≡◌};
    ghost use Rattle.fwd_base.specs.declared.pattern.PatternErr.TheVariants as err;

    ghost from_gives = { λ _ error. error ≡ err.Memory };

    fn from(_: Memory) -> Self {
        PatternErr::Memory
    }
}

/// A compiled pattern. It is built once, and searches any number of texts.
#[derive(Debug, Drop)]
pub struct Pattern {
    pub(crate) regex: Regex,
}

impl Pattern {
    ghost use Rattle.std.specs.Prelude.{IfOk, IsErrOf};
    ghost use Rattle.fwd_base.specs.Pattern.{translated, IsReadFrom, IsNoPattern, SearchesFor};
    ghost use Rattle.fwd_base.specs.declared.pattern.PatternErr.TheVariants.{Refused};

    /// Compiles a pattern. A named group may begin with `(?<` or `(?P<`.
    pub fn new(alloc: Global, text: &[u8]) -> Result<Self, PatternErr>
        ensures read { IfOk result (IsReadFrom (translated text.now)) }
        ensures refused { IsErrOf result Refused → IsNoPattern text.now }
    {
        let translated = rewrite::translate(alloc, text)?;
        let Ok(source) = str::from_utf8(translated.as_slice()) else {
            return Err(PatternErr::Refused);
        };
        match Regex::new(alloc, source) {
            Ok(regex) => Ok(Pattern { regex }),
            Err(regex::Error::Syntax(_)) => Err(PatternErr::Refused),
            Err(_) => Err(PatternErr::Memory),
        }
    }

    /// Returns a searcher, which is built once and searches one text after another. A search is mutable, and
    /// threads share patterns; so a searcher is made for a batch and not kept with the pattern.
    pub fn search(&self, alloc: Global) -> Result<Search<'_>, Memory>
        ensures { IfOk result (SearchesFor self.now) }
    {
        Search::new(alloc, self)
    }
}

/// Shows that `Pattern` is `Send` and `Sync`.
pub fn patterns_are_send_sync(pattern: &Pattern) {
    crosses(pattern)
}
