// What an image does.
ghost use Rattle.std.specs.Prelude.{◌≡◌, ◌≤◌, length, take, None, Some, Ok, vec_len, ◌==◌};
ghost use Rattle.flash.specs.Answers.{image_answer};
ghost use Rattle.flash.specs.Images.{image_meaning, image_most};
ghost use Rattle.flash.specs.Pendings.{landed, meaning_of};
ghost use Rattle.std.proofs.Common.{rules};
ghost use Rattle.flash.specs.Landing.{length-landed, landed_rest};

use crate::checks::{read_from, start_refusal};
use crate::image::{Image, Pending};
use crate::in_progress::InProgress;
use crate::page::fits_page;
use crate::refusal::FlashRefusal;
use crate::tallies::Tallies;
use crate::traits::{NorFlash, ReadNorFlash};

// The bytes of a program at the front of a page's worth.
fn page_of(new: &[u8]) -> [u8; 256]
    requires { length new.now ≤ 256 }
    ensures { take (length new.now) result ≡ new.now }
{
    let mut page = [0xff; 256];
    page[..new.len()].copy_from_slice(new);
    page
}

// Makes the change that was under way.
fn land(pending: Pending, bytes: &mut [u8])
    ensures { bytes.new ≡ landed (Some pending) bytes.old }
{
    match pending {
        Pending::Program { at, count, new } => {
            cells::program_bytes(bytes, at, &new[..count.min(256)])
        }
        Pending::Erase { first } => cells::erase(bytes, first, 4096),
    }
}

impl Image {
    /// Whether an image can be made of so many bytes and marks.
    pub fn refusal(bytes: &Vec<u8>, marks: &Vec<bool>) -> Result<(), FlashRefusal>
        ensures { result ≡ image_answer (vec_len bytes.now) (vec_len marks.now) }
    {
        let n = marks.len();
        if n < 1 || n > 256 || bytes.len() != 4096 * n {
            return Err(FlashRefusal::Range);
        }
        Ok(())
    }

    /// An image of these bytes and marks. Ask `refusal` first.
    pub fn new(bytes: Vec<u8>, marks: Vec<bool>) -> Image
        requires { image_answer (vec_len bytes) (vec_len marks) ≡ Ok tt }
        ensures { image_meaning result ≡ meaning_of None bytes.items marks.items 0 0 }
    {
        Image {
            bytes,
            marks,
            pending: None,
            tallies: Tallies::new(),
        }
    }

    /// Gives the bytes back, as they stand.
    pub fn release(self) -> Vec<u8>
        ensures { result.items ≡ (image_meaning self).bytes }
    {
        let Image { bytes, .. } = self;
        bytes
    }
}

impl ReadNorFlash for Image {
    ghost bytes = { λ f. f.bytes.items };

    ghost ready = { λ f. ((image_meaning f).left == 0) };

    ghost most = { image_most };

    fn capacity(&self) -> usize {
        self.bytes.len()
    }

    fn is_ready(&self) -> bool {
        self.pending.is_none()
    }

    fn read(&self, at: usize, out: &mut [u8]) -> Result<(), FlashRefusal> {
        read_from(&self.bytes, self.is_ready(), at, out)
    }
}

impl NorFlash for Image {
    ghost meaning = { image_meaning };

    ghost sound = { λ f.
        let e : vec_len f.bytes ≡ length f.bytes.items = f.bytes.ok.0 in
        let l = length-landed f.pending f.bytes.items in
        let r = landed_rest f.pending f.bytes.items in
        Prim.search rules };

    ghost same = { Prim.search rules };

    ghost rests = { Prim.search rules };

    fn program(&mut self, at: usize, new: &[u8]) -> Result<InProgress, FlashRefusal> {
        if !fits_page(at, new.len(), self.bytes.len()) {
            return Err(FlashRefusal::Range);
        }
        start_refusal(self.is_ready(), self.marks[at / 4096])?;
        self.pending = Some(Pending::Program {
            at,
            count: new.len(),
            new: page_of(new),
        });
        self.tallies.count_program();
        Ok(InProgress::started())
    }

    fn erase_sector(&mut self, sector: usize) -> Result<InProgress, FlashRefusal> {
        start_refusal(self.is_ready(), self.is_protected(sector)?)?;
        self.pending = Some(Pending::Erase {
            first: sector * 4096,
        });
        self.tallies.count_erase();
        Ok(InProgress::started())
    }

    fn tick(&mut self) {
        if let Some(pending) = self.pending {
            land(pending, &mut self.bytes);
            self.pending = None;
        }
    }

    fn is_protected(&self, sector: usize) -> Result<bool, FlashRefusal> {
        self.marks.get(sector).copied().ok_or(FlashRefusal::Range)
    }

    fn program_ticks(&self) -> u16 {
        1
    }

    fn erase_ticks(&self) -> u16 {
        1
    }
}
