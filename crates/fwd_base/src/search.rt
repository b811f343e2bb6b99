//! Searching many texts for one pattern.

ghost use Rattle.std.specs.Prelude.{◌≡◌, ◌++◌, ℕ, List, map, option_map, string_bytes, is_some, IfOk, OnOk, IfSome};
ghost use Rattle.regex.specs.Patterns.{Match as Found, find};
ghost use Rattle.regex.specs.Names.{names_of};
ghost use Rattle.regex.specs.Bytes.{IsCapturesOf, match_haystack, match_span};
ghost use Rattle.fwd_base.specs.Pattern.{captures_of, named_capture, captured};

use crate::{Memory, Pattern};
use regex::bytes::{Captures, Match, Matcher};
use std::alloc::Global;

/// A named group that took part in a match.
#[derive(Clone, Copy, Debug, PartialEq, Eq)]
pub struct Capture<'p, 't> {
    pub name: &'p [u8],

    /// The bytes that the group spans.
    pub bytes: &'t [u8],
}

/// A searcher for one pattern, with the buffers that searches reuse.
#[derive(Drop)]
pub struct Search<'p> {
    names: &'p [Option<String>],
    matcher: Matcher<'p>,
}

impl<'p> Search<'p> {
    ghost use Rattle.fwd_base.specs.Pattern.{SearchesFor, SearchesAs, search_expression, search_names};

    pub(crate) fn new(alloc: Global, pattern: &'p Pattern) -> Result<Self, Memory>
        ensures { IfOk result (SearchesFor pattern.now) }
    {
        let matcher = pattern.regex.matcher(alloc)?;
        let names = pattern.regex.capture_names();
        Ok(Search { names, matcher })
    }

    /// Returns whether the text contains a match.
    pub fn hits(&mut self, text: &[u8]) -> bool
        ensures found { result ≡ is_some (find (search_expression self.old) text.now 0) }
        ensures same { SearchesAs self.old self.new }
    {
        self.matcher.is_match(text)
    }

    /// Returns the named groups that took part in the first match, in the order of the groups, or `None` if
    /// nothing matches.
    pub fn captures<'t>(
        &mut self,
        alloc: Global,
        text: &'t [u8],
    ) -> Result<Option<Vec<Capture<'p, 't>>>, Memory>
        ensures found { IfOk result (λ found. option_map (λ captures. map captured captures.items) found
            ≡ option_map (captures_of (search_names self.old) text.now)
            (find (search_expression self.old) text.now 0)) }
        ensures same { SearchesAs self.old self.new }
    {
        let names = self.names;
        let Some(captures) = self.matcher.captures(text) else {
            return Ok(None);
        };
        Ok(Some(named_captures(alloc, names, &captures)?))
    }
}

/// Returns the named groups that took part in the match with these captures.
fn named_captures<'p, 't>(
    alloc: Global,
    names: &'p [Option<String>],
    captures: &Captures<'_, 't>,
) -> Result<Vec<Capture<'p, 't>>, Memory>
    ensures { (text : List ℕ) (m : Found) → IsCapturesOf text m captures.now →
        IfOk result (λ named. map captured named.items ≡ captures_of (names_of names.now) text m) }
{
    let mut named = Vec::with_capacity(alloc, names.len())?;
    for n in 1..names.len() {
        push_named(&mut named, &names[n], captures.get(n))?;
    }
    Ok(named)
}

/// Appends a group if it has a name and took part.
fn push_named<'p, 't>(
    named: &mut Vec<Capture<'p, 't>>,
    name: &'p Option<String>,
    found: Option<Match<'t>>,
) -> Result<(), Memory>
    ensures { (text : List ℕ) → IfSome found.entry (λ part. match_haystack part ≡ text) →
        OnOk result (map captured named.new.items ≡ map captured named.old.items
        ++ named_capture text (option_map string_bytes name.now) (option_map match_span found.entry)) }
{
    let (Some(name), Some(found)) = (name, found) else {
        return Ok(());
    };
    named.push(Capture {
        name: name.as_bytes(),
        bytes: found.as_bytes(),
    })?;
    Ok(())
}
