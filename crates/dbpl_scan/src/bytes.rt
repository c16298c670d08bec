//! Which bytes are blanks, digits, and parts of words and strings, and parts of texts.
ghost use Rattle.std.specs.Prelude.{◌≡◌, ◌-◌, ◌≤◌, length, take, drop};
ghost use Rattle.dbpl_base.specs.Spelling as spelling;
ghost use Rattle.dbpl_base.specs.Words as bytes;
ghost use Rattle.dbpl_scan.specs.Fronts as fronts;

/// A tabulator, a line end, a carriage return or a space.
pub fn is_blank(byte: u8) -> bool
    ensures { result ≡ bytes.is_blank byte }
{
    matches!(byte, b'\t' | b'\n' | b'\r' | b' ')
}

pub fn is_letter(byte: u8) -> bool
    ensures { result ≡ bytes.is_letter byte }
{
    byte.is_ascii_alphabetic()
}

/// What an identifier may go on with.
pub fn is_word_byte(byte: u8) -> bool
    ensures { result ≡ bytes.is_word_byte byte }
{
    byte.is_ascii_alphanumeric()
}

pub fn is_digit(byte: u8) -> bool
    ensures { result ≡ bytes.is_digit byte }
{
    byte.is_ascii_digit()
}

pub fn is_octal(byte: u8) -> bool
    ensures { result ≡ bytes.is_octal byte }
{
    matches!(byte, b'0'..=b'7')
}

/// A digit, or a letter from A to F.
pub fn is_hexadecimal(byte: u8) -> bool
    ensures { result ≡ bytes.is_hexadecimal byte }
{
    matches!(byte, b'0'..=b'9' | b'A'..=b'F')
}

/// What opens and closes a string.
pub fn is_quote(byte: u8) -> bool
    ensures { result ≡ fronts.is_quote byte }
{
    byte == b'"' || byte == b'\''
}

/// What a string in this quote may hold.
pub fn is_text_byte(quote: u8, byte: u8) -> bool
    ensures { result ≡ spelling.is_text_byte quote byte }
{
    byte != quote && byte != b'\n' && byte != b'\r'
}

/// What follows so many bytes.
pub fn past(text: &[u8], count: usize) -> &[u8]
    requires { count ≤ length text.now }
    ensures { result.now ≡ drop count text.now }
{
    text.split_at(count).1
}

/// The front of a text, up to a rest of this length.
pub fn up_to<'a>(text: &'a [u8], rest: &[u8]) -> &'a [u8]
    requires { length rest.now ≤ length text.now }
    ensures { result.now ≡ take (length text.now - length rest.now) text.now }
{
    text.split_at(text.len() - rest.len()).0
}
