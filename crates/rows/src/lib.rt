//! Rows: one byte of kind, then a body whose length the kind fixes. A kind of row shows that reading what a row
//! writes gives that row. Here are the temperature row and the reflector row.
#![tactic(auto)]

mod bytes;
mod law;
mod limits;
mod reflector;
mod refusal;
mod row;
mod temperature;
#[cfg(test)]
mod tests;

pub use law::read_back;
pub use reflector::Reflector;
pub use refusal::RowRefusal;
pub use row::Row;
pub use temperature::Temperature;
