// A frame: the bytes clocked in while CS# is low.
ghost use Rattle.std.specs.Prelude.{◌≡◌, true, length, vec_len};
ghost use Rattle.cells.specs.Driven.{driven};
ghost use Rattle.ft25h08.specs.Accepted.{acted, driven_by, erase_ticks};
ghost use Rattle.ft25h08.specs.Activities.{still_counts};
ghost use Rattle.ft25h08.specs.Chip.{conditions_of, with_activity};
ghost use Rattle.ft25h08.specs.Frame.{frame_answer, frame_after, answer_after};
ghost use Rattle.ft25h08.specs.State.{chip_of};

use crate::activity::{Activity, Change};
use crate::chip::Ft25h08;
use crate::ticks::Ticks;
use cells::{drive_nothing, drive_range, drive_repeated, load_latch};
use ft25h08_commands::{
    Capacity, Command, Conditions, EraseSize, FrameRefusal, admit, data_in, decode,
};

impl Ticks {
    // How long an erase takes.
    fn of_erase(self, size: EraseSize) -> u16
        ensures { result ≡ erase_ticks self size }
    {
        match size {
            EraseSize::Sector => self.erase_sector,
            EraseSize::Block32 => self.erase_block32,
            EraseSize::Block64 => self.erase_block64,
        }
    }
}

impl Ft25h08 {
    /// A frame of whole bytes and then `odd` further bits. The answer buffer receives, for each byte of the frame
    /// and no further, what the chip drives, or FF where it drives nothing.
    pub fn frame(&mut self, bytes: &[u8], odd: u8, answer: &mut [u8]) -> Result<(), FrameRefusal>
        ensures answer { result ≡ frame_answer (chip_of self.old) bytes.now odd (length answer.old) }
        ensures after { chip_of self.new ≡ frame_after (chip_of self.old) bytes.now odd (length answer.old) }
        ensures driven { answer.new ≡ answer_after (chip_of self.old) bytes.now odd answer.old }
    {
        let verdict = admit(
            self.conditions(),
            Capacity::new(self.array.len()),
            bytes,
            odd,
            answer.len(),
        );
        match verdict {
            Ok(()) => {
                let command = decode(bytes);
                self.drive(command, bytes.len(), answer);
                self.act(command, bytes);
            }
            Err(FrameRefusal::Size) => {}
            Err(_) => drive_nothing(answer, bytes.len()),
        }
        verdict
    }

    fn conditions(&self) -> Conditions
        ensures { result ≡ conditions_of (chip_of self.now) }
    {
        Conditions {
            settings: self.settings,
            write_enabled: self.write_enabled,
            wp_high: self.wp_high,
            mode: self.activity.mode(),
        }
    }

    // What the chip drives during an accepted frame of `n` bytes.
    fn drive(&self, command: Command, n: usize, answer: &mut [u8])
        ensures { answer.new ≡ driven (driven_by command (chip_of self.now)) n answer.old }
    {
        match command {
            Command::ReadStatusLow => {
                drive_repeated(
                    answer,
                    n,
                    self.settings.low_byte(self.write_enabled, self.is_busy()),
                );
            }
            Command::ReadStatusHigh => drive_repeated(answer, n, self.settings.high_byte()),
            Command::Read { at } => drive_range(answer, n, self.array.as_slice(), at, 4),
            Command::FastRead { at } => drive_range(answer, n, self.array.as_slice(), at, 5),
            Command::ReadSecurity { at } => drive_range(answer, n, &self.security.bytes(), at, 5),
            _ => drive_nothing(answer, n),
        }
    }

    // What an accepted frame does depends on the activity and the command together.
    #[tactic(auto, unfolding(crate::specs::Counts::all_count))]
    fn act(&mut self, command: Command, frame: &[u8])
        ensures { chip_of self.new ≡ acted command frame.now (chip_of self.old) }
    {
        match (&self.activity, command) {
            (Activity::Idle, Command::WriteEnable) => self.write_enabled = true,
            (Activity::Idle, Command::WriteDisable) => self.write_enabled = false,
            (Activity::Idle, Command::DeepPowerDown) => self.activity = Activity::Asleep,
            (Activity::Idle | Activity::Asleep, Command::Release) => self.activity = Activity::Idle,
            (Activity::Idle, Command::WriteStatus { low, high }) => {
                let new = self.settings.written(low, high);
                self.start(Change::WriteStatus { new }, self.ticks.status_write);
            }
            (Activity::Idle, Command::Program { at }) => {
                let address = at as usize % self.array.len();
                let latch = load_latch(at, data_in(frame));
                self.start(
                    Change::Program {
                        page: address - address % 256,
                        latch,
                    },
                    self.ticks.program,
                );
            }
            (Activity::Idle, Command::ProgramSecurity { at }) => {
                let latch = load_latch(at, data_in(frame));
                self.start(
                    Change::ProgramSecurity {
                        register: at as usize / 256,
                        latch,
                    },
                    self.ticks.program,
                );
            }
            (Activity::Idle, Command::Erase { at, size }) => {
                let address = at as usize % self.array.len();
                let len = size.bytes() as usize;
                self.start(
                    Change::Erase {
                        first: address - address % len,
                        len,
                    },
                    self.ticks.of_erase(size),
                );
            }
            (Activity::Idle, Command::EraseChip) => {
                let len = self.array.len();
                self.start(Change::Erase { first: 0, len }, self.ticks.erase_chip);
            }
            (Activity::Idle, Command::EraseSecurity) => self.start(
                Change::EraseSecurity,
                self.ticks.erase_sector,
            ),
            _ => {}
        }
    }

    fn start(&mut self, change: Change, left: u16)
        requires { still_counts (Activity.Changing change left) ≡ true }
        ensures { chip_of self.new ≡ with_activity (Activity.Changing change left) (chip_of self.old) }
    {
        self.activity = Activity::Changing { change, left };
    }
}
