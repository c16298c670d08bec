//! Identifiers.
ghost use Rattle.std.specs.Prelude.{◌≡◌};
ghost use Rattle.std.specs.List.{list_all};
ghost use Rattle.dbpl_base.specs.Words.{is_letter as is_letter_byte, is_word_byte};
ghost use Rattle.dbpl_value.specs.Types.{is_identifier as is_identifier_name};

/// A letter, and then letters and digits.
pub fn is_identifier(name: &[u8]) -> bool
    ensures { result ≡ is_identifier_name name.now }
{
    match name.split_first() {
        Some((first, others)) => is_letter(*first) && are_word_bytes(others),
        None => false,
    }
}

fn is_letter(byte: u8) -> bool
    ensures { result ≡ is_letter_byte byte }
{
    byte.is_ascii_alphabetic()
}

fn are_word_bytes(bytes: &[u8]) -> bool
    ensures { result ≡ list_all is_word_byte bytes.now }
{
    bytes.iter().all(|byte| byte.is_ascii_alphanumeric())
}
