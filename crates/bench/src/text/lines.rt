// The lines of a report.
ghost use Rattle.std.specs.Prelude.{◌≡◌, ◌++◌, OnOk};
ghost use Rattle.bench.specs.Gathered.{text_of};
ghost use Rattle.bench.specs.Texts.{answer_text, line_text, status_text, fault_text};

use crate::text::Text;
use std::alloc::AllocError;

#[tactic(auto, using(std::proofs::lemmas::List::append_assoc))]
impl Text {
    /// A line: its number, the number of the answer, and the bytes of the answer.
    pub(crate) fn push_line(
        &mut self,
        line: u64,
        number: u8,
        bytes: &[u8],
    ) -> Result<(), AllocError>
        ensures { OnOk result (text_of self.new ≡ text_of self.old ++ line_text line number bytes.now) }
    {
        self.push_decimal(line)?;
        self.push(b' ')?;
        self.push_decimal(number as u64)?;
        self.push(b' ')?;
        self.push_answer(bytes)?;
        self.push(b'\n')
    }

    // The bytes of an answer, or a dash where there are none.
    fn push_answer(&mut self, bytes: &[u8]) -> Result<(), AllocError>
        ensures { OnOk result (text_of self.new ≡ text_of self.old ++ answer_text bytes.now) }
    {
        match bytes {
            [] => self.push(b'-'),
            [_, ..] => self.push_hex(bytes),
        }
    }

    /// The last line of a good trace.
    pub(crate) fn push_status(&mut self, status: u16) -> Result<(), AllocError>
        ensures { OnOk result (text_of self.new ≡ text_of self.old ++ status_text status) }
    {
        self.push_bytes(b"status ")?;
        self.push_hex(&status.to_be_bytes())?;
        self.push(b'\n')
    }

    /// The last line of a trace with a fault.
    pub(crate) fn push_fault(&mut self, offset: u64) -> Result<(), AllocError>
        ensures { OnOk result (text_of self.new ≡ text_of self.old ++ fault_text offset) }
    {
        self.push_bytes(b"trace 13 at ")?;
        self.push_decimal(offset)?;
        self.push(b'\n')
    }
}
