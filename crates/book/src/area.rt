// A book and its area.
ghost use Rattle.std.specs.Prelude.{◌≡◌, ◌+◌, ◌≤◌, true};
ghost use Rattle.book.specs.Area.{is_area};

mod calls;

/// A book: an area of whole sectors, divided into slots of one row each. The flash is lent to each call.
#[derive(Clone, Copy)]
pub struct Book {
    start: usize,
    len: usize,
    ghost whole: { is_area start len ≡ true },
    ghost small: { start + len ≤ 1048576 },
}
