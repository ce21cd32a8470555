//! A text for people in the making.

use std::alloc::{AllocError, Global};

/// A text that is put together of parts. Where memory was refused for one of them there is none: so those that put parts need not
/// stop there, and `whole` says it at the end.
#[derive(Drop)]
pub(crate) struct Told {
    text: String,
    is_whole: bool,
}

impl Told {
    /// The empty text.
    pub(crate) fn new(alloc: Global) -> Told {
        Told {
            text: String::new(alloc),
            is_whole: true,
        }
    }

    /// Puts a part.
    pub(crate) fn push_str(&mut self, part: &str) {
        if self.text.push_str(part).is_err() {
            self.is_whole = false;
        }
    }

    /// Puts a character.
    pub(crate) fn push(&mut self, character: char) {
        if self.text.push(character).is_err() {
            self.is_whole = false;
        }
    }

    /// Puts a number.
    pub(crate) fn push_number(&mut self, number: usize) {
        if write!(self.text, "{number}").is_err() {
            self.is_whole = false;
        }
    }

    /// The text, unless memory was refused for a part of it.
    pub(crate) fn whole(self) -> Result<String, AllocError> {
        if self.is_whole {
            Ok(self.text)
        } else {
            Err(AllocError)
        }
    }
}
