// What each record does on the bench.
ghost use Rattle.std.specs.Prelude.{◌≡◌, ℕ, ◌*◌, ◌≤◌, true, false, [], ◌∷◌, ◌++◌, length, MatchResult, OnOk};
ghost use Rattle.ft25h08.specs.Frame.{frame_after};
ghost use Rattle.ft25h08.specs.Pin.{pin_after};
ghost use Rattle.ft25h08.specs.PowerCut.{cut_after};
ghost use Rattle.ft25h08.specs.Queries.{busy_in, status_of};
ghost use Rattle.ft25h08.specs.State.{chip_of};
ghost use Rattle.ft25h08.specs.Tick.{tick_after};
ghost use Rattle.bench.specs.Clocked.{Clocked};
ghost use Rattle.bench.specs.Gathered.{text_of};
ghost use Rattle.bench.specs.Plays.{allowed, Played, ticked, frame_number, frame_shown, shown_by, pin_number_of, cut_number_of, on_bench};
ghost use Rattle.bench.specs.States.{bench_of};
ghost use Rattle.bench.specs.Texts.{line_text};

use crate::bench::Bench;
use crate::bench::clock::clock_into;
use crate::record::Record;
use crate::text::Text;
use arrayvec::ArrayVec;
use ft25h08::{FrameRefusal, Ft25h08};
use std::alloc::AllocError;

// A tick, where a change is under way; without one it would do nothing. Answers whether there was one.
fn tick_busy(chip: &mut Ft25h08) -> bool
    ensures answer { result ≡ busy_in (chip_of chip.old) }
    ensures after { chip_of chip.new ≡ tick_after (chip_of chip.old) }
{
    if !chip.is_busy() {
        return false;
    }
    chip.tick();
    true
}

// So many ticks. Once no change is under way the rest of them do nothing.
fn pass_ticks(chip: &mut Ft25h08, count: u16)
    ensures { chip_of chip.new ≡ ticked count (chip_of chip.old) }
{
    for _ in 0..count {
        if !tick_busy(chip) {
            break;
        }
    }
}

// The number of an answer: 0 where it was accepted.
fn number_of<E: Into<u8>>(answer: Result<(), E>) -> u8
    ensures { MatchResult answer (λ _. result ≡ 0) (λ refusal. E.converts refusal result) }
{
    match answer {
        Ok(()) => 0,
        Err(refusal) => refusal.into(),
    }
}

// What is shown of the answer buffer: nothing of it where the frame was refused for its size.
fn shown(answer: Result<(), FrameRefusal>, buffer: &[u8]) -> &[u8]
    ensures { result.now ≡ shown_by answer buffer.now buffer.now }
{
    match answer {
        Err(FrameRefusal::Size) => &[],
        _ => buffer,
    }
}

// CS# goes high: the chip answers the frame, into a buffer as long as the frame, and the line is printed.
fn answer_frame(
    chip: &mut Ft25h08,
    frame: &[u8],
    odd: u8,
    buffer: &mut [u8],
    line: u64,
    out: &mut Text,
) -> Result<(), AllocError>
    requires { length buffer.old ≡ length frame.now }
    ensures after { chip_of chip.new ≡ frame_after (chip_of chip.old) frame.now odd (length frame.now) }
    ensures text { OnOk result (text_of out.new ≡ text_of out.old ++ line_text line (frame_number (chip_of chip.old) frame.now odd) (frame_shown (chip_of chip.old) frame.now odd)) }
{
    let answer = chip.frame(frame, odd, buffer);
    out.push_line(line, number_of(answer), shown(answer, buffer))
}

impl Bench {
    /// The chip on the bench, with CS# high.
    pub(crate) fn new(chip: Ft25h08) -> Bench
        ensures { bench_of result ≡ on_bench (chip_of chip) }
    {
        Bench {
            chip,
            selected: false,
            frame: ArrayVec::new(),
            answer: [0; 4096],
        }
    }

    /// Whether CS# is low.
    pub(crate) fn is_selected(&self) -> bool
        ensures { result ≡ (bench_of self.now).selected }
    {
        self.selected
    }

    /// The chip's status register.
    pub(crate) fn status(&self) -> u16
        ensures { result ≡ status_of (bench_of self.now).chip }
    {
        self.chip.status()
    }

    /// Whether a record may come now.
    pub(crate) fn allows(&self, event: Record) -> bool
        ensures { result ≡ allowed event (bench_of self.now) }
    {
        match event {
            Record::Byte { byte: _ } => self.selected && self.frame.len() < 4096,
            Record::SelectHigh { odd: _ } => self.selected,
            _ => !self.selected,
        }
    }

    /// Clocks in the byte records at the front of `rest` as long as there is room, and answers how many.
    pub(crate) fn clock(&mut self, rest: &[u8]) -> usize
        ensures clocked { Clocked result rest.now (bench_of self.old).frame (bench_of self.new).frame }
        ensures chip { (bench_of self.new).chip ≡ (bench_of self.old).chip }
        ensures selected { (bench_of self.new).selected ≡ (bench_of self.old).selected }
    {
        clock_into(&mut self.frame, rest)
    }

    /// Plays a record that may come now, and prints its line.
    pub(crate) fn play(
        &mut self,
        event: Record,
        line: u64,
        out: &mut Text,
    ) -> Result<(), AllocError>
        requires { allowed event (bench_of self.old) ≡ true }
        ensures { OnOk result (Played event line (bench_of self.old) (bench_of self.new) (text_of out.old) (text_of out.new)) }
    {
        match event {
            Record::Byte { byte } => {
                self.frame.push(byte);
                Ok(())
            }
            Record::SelectLow => {
                self.selected = true;
                self.frame.clear();
                Ok(())
            }
            Record::SelectHigh { odd } => {
                self.selected = false;
                let n = self.frame.len();
                answer_frame(
                    &mut self.chip,
                    self.frame.as_slice(),
                    odd,
                    &mut self.answer[0..n],
                    line,
                    out,
                )
            }
            Record::Ticks { count } => {
                pass_ticks(&mut self.chip, count);
                out.push_line(line, 0, &[])
            }
            Record::WpPin { level } => {
                let number = number_of(self.chip.set_wp_pin(level));
                out.push_line(line, number, &[])
            }
            Record::PowerCut { junk } => {
                let number = number_of(self.chip.power_cut(&[junk]));
                out.push_line(line, number, &[])
            }
        }
    }
}
