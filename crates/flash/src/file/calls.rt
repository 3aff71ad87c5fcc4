// What a file image does.
ghost use Rattle.std.specs.Prelude.{◌≡◌, true, length, Ok};
ghost use Rattle.flash.specs.Answers.{file_answer};

use crate::checks::read_from;
use crate::file::FileImage;
use crate::refusal::FlashRefusal;
use crate::traits::ReadNorFlash;

impl<'a> FileImage<'a> {
    /// Whether a file image can be made of so many bytes.
    pub fn refusal(bytes: &[u8]) -> Result<(), FlashRefusal>
        ensures { result ≡ file_answer (length bytes.now) }
    {
        let n = bytes.len();
        if n % 4096 != 0 || n < 4096 || n > 1_048_576 {
            return Err(FlashRefusal::Range);
        }
        Ok(())
    }

    /// A file image of these bytes. Ask `refusal` first.
    pub fn new(bytes: &'a [u8]) -> FileImage<'a>
        requires { file_answer (length bytes.now) ≡ Ok tt }
        ensures { result.bytes.now ≡ bytes.now }
    {
        FileImage { bytes }
    }
}

impl<'a> ReadNorFlash for FileImage<'a> {
    ghost bytes = { λ f. f.bytes.now };

    ghost ready = { λ _. true };

    ghost most = { λ f. f.small };

    fn capacity(&self) -> usize {
        self.bytes.len()
    }

    fn is_ready(&self) -> bool {
        true
    }

    fn read(&self, at: usize, out: &mut [u8]) -> Result<(), FlashRefusal> {
        read_from(self.bytes, true, at, out)
    }
}
