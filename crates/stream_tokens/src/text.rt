//! Bytes of a job's text, which lie in the file unless lines were joined.
ghost use Rattle.std.specs.Prelude.{◌≡◌, ◌∷◌, ◌++◌, IfOk};

use std::alloc::{AllocError, Global};
use std::borrow::CowSlice;
use std::marker::Model;

/// The bytes of a text: a part of the file, or a copy if the text has more than one line.
#[derive(Drop)]
pub struct Text<'a> {
    bytes: CowSlice<'a, u8>,
}

impl<'a> Model for Text<'a> {
    ghost use Rattle.std.specs.Prelude.{ℕ, List};
    ghost use Rattle.std.specs.Cow.{cow_slice_items};

    ghost Value = { List ℕ };

    ghost view = { λ text. cow_slice_items text.bytes };
}

impl<'a> Text<'a> {
    /// The text of one line. Nothing is copied.
    pub(crate) fn of_line(line: &'a [u8]) -> Text<'a>
        ensures { result ≡ line.now }
    {
        Text {
            bytes: CowSlice::Borrowed(line),
        }
    }

    /// The bytes of the text.
    pub fn as_slice(&self) -> &[u8]
        ensures { result.now ≡ self.now }
    {
        match &self.bytes {
            CowSlice::Borrowed(bytes) => bytes,
            CowSlice::Owned(bytes) => bytes.as_slice(),
        }
    }

    /// The text, a space and one more line. The text is copied first if it lies in the file.
    pub(crate) fn join(self, alloc: Global, line: &[u8]) -> Result<Text<'a>, AllocError>
        ensures { IfOk result (λ text. text ≡ self.entry ++ 32 ∷ line.now) }
    {
        let mut bytes = self.bytes.into_owned(alloc)?;
        bytes.push(b' ')?;
        bytes.extend_from_slice(line)?;
        Ok(Text {
            bytes: CowSlice::Owned(bytes),
        })
    }
}
