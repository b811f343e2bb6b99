//! What a recorder keeps of the calls.

ghost use Rattle.std.specs.Prelude.{◌≡◌, ◌≢◌, ◌++◌, ◌∷◌, [], ℕ, List, Option, Some, None, OnOk, OnErr, vec_len, vec_capacity};
ghost use Rattle.fwd_outside.specs.Program.{entry};
ghost use Rattle.fwd_outside.specs.Loop as outside;
ghost use Rattle.fwd_outside.specs.NewLinks.{AreNewLinks};
ghost use Rattle.fwd_outside.specs.declared.happening.Happening.TheVariants as happening;
ghost use Rattle.fwd_script_loop.specs.Lines.{word_answer};
ghost use Rattle.fwd_script_loop.specs.Place.{output_of, closed, taken_answer};
ghost use Rattle.fwd_record.specs.Seen.{Seen, Answered, Stopped, calls_of};
ghost use Rattle.fwd_record.specs.Links.{AreRising, number_of, output_at};
ghost use Rattle.fwd_record.specs.Notes.{IsNoted, HasRoom, links_kept};

use fwd_base::{LinkId, Memory, OutputId};
use fwd_outside::Happening;
use fwd_script::{Given, PushWord};
use std::alloc::Global;

/// What was brought and answered, in order, and the links.
#[derive(Debug, Drop)]
pub struct Notes {
    /// The events, with the links as the loop below numbers them.
    pub heard: Vec<Happening>,
    pub answers: Vec<Given>,
    /// The links that dials gave. Their numbers rise.
    pub links: Vec<u64>,
    /// The output of each link. `None` if the link was closed.
    pub outputs: Vec<Option<u32>>,
}

/// Returns the number of a link in a schedule: its place among these links, from 1; and 0 for any other.
pub fn number_of(links: &[u64], link: u64) -> u64
    ensures { AreRising 0 links.now → result ≡ number_of links.now link }
{
    match links.binary_search(&link) {
        Ok(place) => place as u64 + 1,
        Err(_) => 0,
    }
}

/// Returns the output of the link of this number, if it is open.
fn output_of(outputs: &[Option<u32>], number: u64) -> Option<u32>
    ensures { result ≡ output_of outputs.now number }
{
    if number == 0 {
        return None;
    }
    match outputs.get((number - 1) as usize) {
        Some(output) => *output,
        None => None,
    }
}

/// Closes the link of this number.
fn close(outputs: &mut [Option<u32>], number: u64)
    ensures { outputs.new ≡ closed outputs.old number }
{
    if number > 0 && number - 1 < outputs.len() as u64 {
        outputs[(number - 1) as usize] = None;
    }
}

impl Notes {
    /// Returns the notes before the first call.
    pub fn new(alloc: Global) -> Notes
        ensures { IsNoted result [] }
    {
        Notes {
            heard: Vec::new(alloc),
            answers: Vec::new(alloc),
            links: Vec::new(alloc),
            outputs: Vec::new(alloc),
        }
    }

    /// Reserves memory for the notes of one call.
    pub fn reserve(&mut self) -> Result<(), Memory>
        ensures same { (seen : List Seen) → IsNoted self.old seen → IsNoted self.new seen }
        ensures links { self.new.links.items ≡ self.old.links.items }
        ensures room { OnOk result (HasRoom self.new) }
    {
        self.heard.reserve(1)?;
        self.answers.reserve(1)?;
        self.links.reserve(1)?;
        self.outputs.reserve(1)?;
        Ok(())
    }

    /// Notes an event, unless it is the end.
    pub fn note_event(&mut self, brought: Happening)
        requires { HasRoom self.old }
        ensures { (seen : List Seen) (until paused : ℕ) → IsNoted self.old seen → IsNoted self.new (seen ++ Answered (entry (outside.Wait until paused) brought) ∷ []) }
    {
        match brought {
            Happening::End => {}
            other => self.heard.push_reserved(other),
        }
    }

    /// Notes that the run was stopped.
    pub fn note_stop(&mut self)
        requires { HasRoom self.old }
        ensures { (seen : List Seen) → IsNoted self.old seen → IsNoted self.new (seen ++ Stopped ∷ []) }
    {
        self.heard.push_reserved(Happening::Stop);
    }

    /// Notes the link of a dial.
    pub fn note_link(&mut self, output: OutputId, link: LinkId)
        requires { HasRoom self.old }
        ensures { (seen : List Seen) (tag : List ℕ) → IsNoted self.old seen → IsNoted self.new (seen ++ Answered (entry (outside.Dial output.0 tag) (Some link.0)) ∷ []) }
    {
        self.answers.push_reserved(Given::Dial {
            output,
            taken: true,
        });
        self.links.push_reserved(link.0);
        self.outputs.push_reserved(Some(output.0));
    }

    /// Notes that a dial was refused.
    pub fn note_refusal(&mut self, output: OutputId)
        requires { HasRoom self.old }
        ensures { (seen : List Seen) (tag : List ℕ) → IsNoted self.old seen → IsNoted self.new (seen ++ Answered (entry (outside.Dial output.0 tag) None) ∷ []) }
    {
        self.answers.push_reserved(Given::Dial {
            output,
            taken: false,
        });
    }

    /// Returns the output of a link, if it is open.
    fn output_at(&self, link: LinkId) -> Option<u32>
        ensures { AreRising 0 self.now.links.items → result ≡ output_at (links_kept self.now) link.0 }
    {
        let number = number_of(self.links.as_slice(), link.0);
        output_of(self.outputs.as_slice(), number)
    }

    /// Notes the answer to a push. A link that isn't open has none.
    pub fn note_push(&mut self, link: LinkId, push: PushWord)
        requires { HasRoom self.old }
        ensures { (seen : List Seen) (bytes : List ℕ) → AreNewLinks 0 (calls_of seen) → IsNoted self.old seen → IsNoted self.new (seen ++ Answered (entry (outside.Push link.0 bytes) (word_answer push)) ∷ []) }
    {
        if let Some(output) = self.output_at(link) {
            self.answers.push_reserved(Given::Push {
                output: OutputId(output),
                push,
            });
        }
    }

    /// Notes that a link was closed.
    pub fn note_close(&mut self, link: LinkId)
        ensures { (seen : List Seen) → AreNewLinks 0 (calls_of seen) → IsNoted self.old seen → IsNoted self.new (seen ++ Answered (entry (outside.Close link.0) tt) ∷ []) }
    {
        let number = number_of(self.links.as_slice(), link.0);
        close(self.outputs.as_mut_slice(), number);
    }

    /// Notes whether a reply was accepted.
    pub fn note_reply(&mut self, taken: bool)
        requires { HasRoom self.old }
        ensures { (seen : List Seen) (conn : ℕ) (bytes : List ℕ) → IsNoted self.old seen → IsNoted self.new (seen ++ Answered (entry (outside.Reply conn bytes) (taken_answer taken)) ∷ []) }
    {
        self.answers.push_reserved(Given::Reply { taken });
    }

    /// Notes a random word.
    pub fn note_word(&mut self, word: u64)
        requires { HasRoom self.old }
        ensures { (seen : List Seen) → IsNoted self.old seen → IsNoted self.new (seen ++ Answered (entry outside.Word word) ∷ []) }
    {
        self.answers.push_reserved(Given::Word(word));
    }
}
