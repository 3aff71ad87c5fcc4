// Where a program may lie.
ghost use Rattle.std.specs.Prelude.{◌≡◌};
ghost use Rattle.flash.specs.Answers.{in_page};

/// Whether a program of `n` bytes at an address lies in one page of 256 below the end: 1 to 256 bytes.
pub fn fits_page(at: usize, n: usize, end: usize) -> bool
    ensures { result ≡ in_page at n end }
{
    n >= 1 && n <= 256 && at % 256 <= 256 - n && at <= end && n <= end - at
}
