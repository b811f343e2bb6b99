//! The keywords of a schedule, the first words of its lines.

ghost use Rattle.std.specs.Prelude.{◌≡◌, Some};
ghost use Rattle.std.specs.List.{find};
ghost use Rattle.fwd_script.specs.Keywords.{is_one_happening, is_named, keyword_of, name_of};

/// The first word of a line.
#[derive(Clone, Copy, Debug, PartialEq, Eq)]
pub enum Keyword {
    Tick,
    Ticks,
    Joined,
    Piece,
    Gone,
    InputEnd,
    Room,
    Back,
    Broken,
    Stop,
    Failed,
    Append,
    Cut,
    Dial,
    Push,
    Reply,
    Word,
    Disk,
    File,
    Store,
    Crash,
}

/// All keywords.
pub const ALL: [Keyword; 21] = [
    Keyword::Tick,
    Keyword::Ticks,
    Keyword::Joined,
    Keyword::Piece,
    Keyword::Gone,
    Keyword::InputEnd,
    Keyword::Room,
    Keyword::Back,
    Keyword::Broken,
    Keyword::Stop,
    Keyword::Failed,
    Keyword::Append,
    Keyword::Cut,
    Keyword::Dial,
    Keyword::Push,
    Keyword::Reply,
    Keyword::Word,
    Keyword::Disk,
    Keyword::File,
    Keyword::Store,
    Keyword::Crash,
];

impl Keyword {
    /// Returns the text of the keyword.
    pub fn name(self) -> &'static [u8]
        ensures { result.now ≡ name_of self }
    {
        match self {
            Keyword::Tick => b"tick",
            Keyword::Ticks => b"ticks",
            Keyword::Joined => b"joined",
            Keyword::Piece => b"piece",
            Keyword::Gone => b"gone",
            Keyword::InputEnd => b"inputend",
            Keyword::Room => b"room",
            Keyword::Back => b"back",
            Keyword::Broken => b"broken",
            Keyword::Stop => b"stop",
            Keyword::Failed => b"failed",
            Keyword::Append => b"append",
            Keyword::Cut => b"cut",
            Keyword::Dial => b"dial",
            Keyword::Push => b"push",
            Keyword::Reply => b"reply",
            Keyword::Word => b"word",
            Keyword::Disk => b"disk",
            Keyword::File => b"file",
            Keyword::Store => b"store",
            Keyword::Crash => b"crash",
        }
    }

    /// Returns whether the word is this keyword.
    fn is(self, word: &[u8]) -> bool
        ensures { result ≡ is_named word.now self }
    {
        self.name() == word
    }

    /// Returns the keyword of a word.
    #[tactic(auto, unfolding(crate::specs::Keywords::keywords))]
    pub fn of(word: &[u8]) -> Option<Keyword>
        ensures { result ≡ keyword_of word.now }
    {
        first_with_name(&ALL, word)
    }

    /// Returns whether a line of this keyword has exactly one loop event.
    pub fn is_one_happening(self) -> bool
        ensures { result ≡ is_one_happening self }
    {
        match self {
            Keyword::Tick
            | Keyword::Joined
            | Keyword::Piece
            | Keyword::Gone
            | Keyword::InputEnd
            | Keyword::Room
            | Keyword::Back
            | Keyword::Broken
            | Keyword::Stop
            | Keyword::Failed => true,
            Keyword::Ticks
            | Keyword::Append
            | Keyword::Cut
            | Keyword::Dial
            | Keyword::Push
            | Keyword::Reply
            | Keyword::Word
            | Keyword::Disk
            | Keyword::File
            | Keyword::Store
            | Keyword::Crash => false,
        }
    }
}

/// Returns the first keyword with this text.
fn first_with_name(keywords: &[Keyword], word: &[u8]) -> Option<Keyword>
    ensures { result ≡ find (is_named word.now) keywords.now }
{
    for keyword in keywords {
        if keyword.is(word) {
            return Some(*keyword);
        }
    }
    None
}
