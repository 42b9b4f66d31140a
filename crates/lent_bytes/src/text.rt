// A text that grows in bytes that are lent.
ghost use Rattle.std.specs.Prelude.{◌≡◌, ◌≤◌, length};

use crate::put;

// The text has no room for more.
#[derive(Clone, Copy, Debug, PartialEq, Eq)]
pub struct Full;

// The first `end` bytes are the text.
#[derive(Drop)]
pub struct Text<'a> {
    bytes: &'a mut [u8],
    end: usize,
    pub ghost within: { end ≤ length bytes.now },
}

impl<'a> Text<'a> {
    ghost use Rattle.lent_bytes.specs.Texts.{Adds};

    pub fn new(bytes: &'a mut [u8]) -> Text<'a>
        ensures lent { result.bytes.ghost_name ≡ bytes.entry.ghost_name }
        ensures bytes { result.bytes.now ≡ bytes.old }
        ensures end { result.end ≡ 0 }
    {
        Text { bytes, end: 0 }
    }

    pub fn end(&self) -> usize
        ensures { result ≡ self.now.end }
    {
        self.end
    }

    // Puts `text` at the end; where it does not fit, nothing is changed.
    pub fn put(&mut self, text: &[u8]) -> Result<(), Full>
        ensures { Adds self.old text.now result self.new }
    {
        self.end = put(self.bytes, self.end, text).ok_or(Full)?;
        Ok(())
    }
}
