//! Numbers as people type them on a command line, read exactly: whole numbers, addresses, and numbers with a point in
//! tenths or hundredths.
#![tactic(auto)]

mod digits;
mod fixed;
mod whole;

pub use fixed::{read_hundredths, read_tenths};
pub use whole::{read_address, read_whole};
