//! A `String` that contracts see as the list of its UTF-8 bytes, with no capacity and no pointer.
ghost use Rattle.std.specs.Prelude.{◌≡◌, ◌==◌, length, IfOk, string_bytes};

use std::alloc::{AllocError, Global};
use std::marker::Model;

/// A text in UTF-8: the name of a file, or of a guest.
#[derive(Debug, Drop)]
pub struct Text {
    text: String,
}

impl Model for Text {
    ghost use Rattle.std.specs.Prelude.{List, ℕ};
    ghost use Rattle.std.specs.String.{string_bytes};

    ghost Value = { List ℕ };

    ghost view = { λ all. string_bytes all.text };
}

impl Text {
    /// The bytes of the string, which it keeps. It takes no memory.
    pub fn of(text: String) -> Text
        ensures bytes { result ≡ string_bytes text }
    {
        Text { text }
    }

    /// A copy of the text.
    pub fn from_str(alloc: Global, text: &str) -> Result<Text, AllocError>
        ensures bytes { IfOk result (λ copy. copy ≡ text.now) }
    {
        Ok(Text {
            text: String::from_str(alloc, text)?,
        })
    }

    pub fn into_string(self) -> String
        ensures bytes { string_bytes result ≡ self }
    {
        let Text { text } = self;
        text
    }

    pub fn as_str(&self) -> &str
        ensures bytes { result.now ≡ self.now }
    {
        self.text.as_str()
    }

    /// The number of bytes.
    pub fn len(&self) -> usize
        ensures len { result ≡ length self.now }
    {
        self.text.len()
    }

    pub fn is_empty(&self) -> bool
        ensures empty { result ≡ (length self.now == 0) }
    {
        self.text.is_empty()
    }
}
