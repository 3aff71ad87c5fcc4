// Limits that both kinds of row have.
ghost use Rattle.std.specs.Prelude.{◌≡◌};
ghost use Rattle.rows.specs.Limits.{is_offset};

pub(crate) fn is_offset(offset: i16) -> bool
    ensures { result ≡ is_offset offset }
{
    (-9999..=9999).contains(&offset)
}
