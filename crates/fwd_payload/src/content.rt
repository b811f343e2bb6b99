//! The content of a chunk, with a cached text of it.

ghost use Rattle.std.specs.Prelude.{◌≡◌, List, [], IfOk, IfSome};
ghost use Rattle.fwd_event.specs.declared.event.Event.{Event};
ghost use Rattle.fwd_event.specs.Event.{AreEvents};
ghost use Rattle.fwd_out_text.specs.Payload.{payload_of};
ghost use Rattle.fwd_payload.specs.Content.{MadeOf};

use fwd_base::{Bytes, Memory};
use fwd_out_text::{PayloadForm, payload_of_content};
use std::alloc::Global;
use std::marker::Model;

/// A text made from a content, with its format and tag.
#[derive(Drop)]
struct Text {
    form: PayloadForm,
    tag: Bytes,
    payload: Bytes,
}

impl Text {
    fn new(alloc: Global, form: PayloadForm, tag: &[u8], payload: &Bytes) -> Result<Text, Memory>
        ensures { IfOk result (λ text. (text.form ≡ form) × (text.tag ≡ tag.now) × (text.payload ≡ payload.now)) }
    {
        Ok(Text {
            form,
            tag: Bytes::from_slice(alloc, tag)?,
            payload: payload.try_clone(alloc)?,
        })
    }
}

/// The content of a chunk as it was read, with the last text made from it. Another output with the same
/// format gets a copy. The payload is made from the bytes, an event at a time; only a forward output needs a
/// list of events. Whether the content is a list of events shows then. Contracts see the bytes of the
/// content.
#[derive(Drop)]
pub struct Content {
    bytes: Bytes,
    text: Option<Text>,
}

impl Model for Content {
    ghost use Rattle.std.specs.Prelude.{◌≡◌, ℕ, List, MatchOption};
    ghost use Rattle.fwd_event.specs.declared.event.Event.{Event};
    ghost use Rattle.fwd_event.specs.Event.{AreEvents};
    ghost use Rattle.fwd_out_text.specs.Payload.{payload_of};

    ghost Value = { List ℕ };

    ghost view = { λ c. c.bytes };

    ghost invariant = { λ c. MatchOption c.text (Unit {0}) (λ text. (events : List Event) × AreEvents events c.bytes × (text.payload ≡ payload_of text.form text.tag events)) };
}

impl Content {
    pub fn new(alloc: Global) -> Self
        ensures { result ≡ [] }
    {
        Content {
            bytes: Bytes::new(alloc),
            text: None,
        }
    }

    /// Replaces the bytes. If they are the same as before, the cached text stays.
    pub fn hold(&mut self, bytes: Bytes)
        ensures { self.new ≡ bytes }
    {
        if self.bytes.as_slice() != bytes.as_slice() {
            self.bytes = bytes;
            self.text = None;
        }
    }

    pub fn as_slice(&self) -> &[u8]
        ensures { result.now ≡ self.now }
    {
        self.bytes.as_slice()
    }

    /// Returns the text of the events that the content encodes; `None` if it isn't a list of events. Caches
    /// the text if others may want it and there is memory for a copy.
    pub fn text(
        &mut self,
        alloc: Global,
        form: PayloadForm,
        tag: &[u8],
        is_shared: bool,
    ) -> Result<Option<Bytes>, Memory>
        ensures text { MadeOf self.old (λ events payload. payload ≡ payload_of form tag.now events) result }
        ensures same { self.new ≡ self.old }
    {
        if let Some(payload) = self.copy(alloc, form, tag)? {
            return Ok(Some(payload));
        }
        let payload = payload_of_content(alloc, form, tag, self.bytes.as_slice())?;
        if is_shared && let Some(payload) = &payload {
            self.text = Text::new(alloc, form, tag, payload).ok();
        }
        Ok(payload)
    }

    /// Returns a copy of the cached text, if it has this format and tag.
    fn copy(&self, alloc: Global, form: PayloadForm, tag: &[u8]) -> Result<Option<Bytes>, Memory>
        ensures { IfOk result (λ found. IfSome found (λ payload. (events : List Event) × AreEvents events self.now × (payload ≡ payload_of form tag.now events))) }
    {
        match &self.text {
            Some(text) => {
                if text.form == form && text.tag.as_slice() == tag {
                    Ok(Some(text.payload.try_clone(alloc)?))
                } else {
                    Ok(None)
                }
            }
            None => Ok(None),
        }
    }
}
