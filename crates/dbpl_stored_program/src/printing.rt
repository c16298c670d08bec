// The bytes of a string that are printed.
ghost use Rattle.std.specs.Prelude.{◌≡◌, ◌==◌, ◌≤◌, length};
ghost use Rattle.std.specs.List.{position_or_len};
ghost use Rattle.dbpl_stored_program.specs.Meaning.{before_zero as bytes_before_zero};

/// The bytes before the first byte 0, which WriteString prints.
pub fn before_zero(text: &[u8]) -> &[u8]
    ensures { result.now ≡ bytes_before_zero text.now }
{
    let (printed, _) = text.split_at(length_before_zero(text));
    printed
}

fn length_before_zero(text: &[u8]) -> usize
    ensures within { result ≤ length text.now }
    ensures value { result ≡ position_or_len (λ byte. byte == 0) text.now }
{
    text.iter().take_while(|byte| **byte != 0).count()
}
