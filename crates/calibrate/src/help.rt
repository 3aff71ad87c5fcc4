// What the program can do.
use crate::complaint::Complaint;

const HELP: &str = "calibrate: calibration rows and raw bytes in flash images

  calibrate
      tells the story of a row that changes its sign, on a model of the FT25H08
  calibrate list KIND IMAGE
      prints each slot that is not empty
  calibrate get KIND IMAGE SLOT
      prints one slot
  calibrate put temperature IMAGE SLOT CELSIUS MILLIMETRES
  calibrate put reflector IMAGE SLOT NAME MILLIMETRES
      puts a row into a slot, and prints what that cost
  calibrate write IMAGE ADDRESS FILE
      puts the bytes of FILE at ADDRESS, and prints what that cost
  calibrate help
      prints this

KIND is temperature or reflector. IMAGE is a file of 4096 x 1 to 256 bytes; all of it is
the book, and slot 0 is at its start. ADDRESS is decimal, or hexadecimal after 0x.
CELSIUS is -40.0 to 85.0 in steps of 0.1, MILLIMETRES -99.99 to 99.99 in steps of 0.01;
finer values are refused, not rounded. NAME has 1 to 8 characters from space to ~.
A cost reads: programs N erases N ticks N. In an image each takes one tick.
What is refused is told in one line on standard error, with exit status 1, and the image
is as it was.";

pub(crate) fn print_help(rt: &HostRuntime) -> Result<(), Complaint> {
    println!(rt; "{HELP}")?;
    Ok(())
}
