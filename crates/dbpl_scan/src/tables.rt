//! Tables of words.
ghost use Rattle.std.specs.Prelude.{◌≡◌};
ghost use Rattle.std.specs.List.{position};
ghost use Rattle.std.specs.Str.{bytes_eq};

/// The position of a word in a table.
pub fn position_of(table: &[&'static [u8]], word: &[u8]) -> Option<usize>
    ensures { result ≡ position (λ row. bytes_eq row.now word.now) table.now }
{
    table.iter().position(|row| *row == word)
}
