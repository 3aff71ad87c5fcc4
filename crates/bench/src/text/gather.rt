// How text grows.
ghost use Rattle.std.specs.Prelude.{◌≡◌, ℕ, ◌+◌, ◌*◌, [], ◌∷◌, ◌++◌, length, decimal, OnOk};
ghost use Rattle.bench.specs.Gathered.{text_of};
ghost use Rattle.bench.specs.Texts.{hex_of};

use crate::text::Text;
use crate::text::hex::write_hex;
use std::alloc::{AllocError, Global};

impl Text {
    /// No text.
    pub(crate) fn new(heap: Global) -> Text
        ensures { text_of result ≡ [] }
    {
        Text {
            bytes: Vec::new(heap),
        }
    }

    /// The text itself.
    pub(crate) fn as_slice(&self) -> &[u8]
        ensures { result.now ≡ text_of self.now }
    {
        self.bytes.as_slice()
    }

    /// How many bytes it has.
    pub(crate) fn len(&self) -> usize
        ensures { result ≡ length (text_of self.now) }
    {
        self.bytes.len()
    }

    /// Forgets the text.
    pub(crate) fn clear(&mut self)
        ensures { text_of self.new ≡ [] }
    {
        self.bytes.clear();
    }

    /// One byte more.
    pub(crate) fn push(&mut self, byte: u8) -> Result<(), AllocError>
        ensures { OnOk result (text_of self.new ≡ text_of self.old ++ byte ∷ []) }
    {
        self.bytes.push(byte)?;
        Ok(())
    }

    /// Bytes as they are.
    pub(crate) fn push_bytes(&mut self, bytes: &[u8]) -> Result<(), AllocError>
        ensures { OnOk result (text_of self.new ≡ text_of self.old ++ bytes.now) }
    {
        self.bytes.extend_from_slice(bytes)
    }

    /// Each byte as a pair of hexadecimal digits.
    pub(crate) fn push_hex(&mut self, bytes: &[u8]) -> Result<(), AllocError>
        ensures { OnOk result (text_of self.new ≡ text_of self.old ++ hex_of bytes.now) }
    {
        let start = self.bytes.len();
        let end = start.checked_add(2 * bytes.len()).ok_or(AllocError)?;
        self.bytes.resize(end, 0)?;
        write_hex(&mut self.bytes.as_mut_slice()[start..], bytes);
        Ok(())
    }

    /// A number without leading zeros.
    pub(crate) fn push_decimal(&mut self, n: u64) -> Result<(), AllocError>
        ensures { OnOk result (text_of self.new ≡ text_of self.old ++ decimal n) }
    {
        self.push_bytes(itoa::Buffer::new().format(n).as_bytes())
    }
}
