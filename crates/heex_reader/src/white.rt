//! White space round a text, and the word before it.
ghost use Rattle.std.specs.Prelude.{◌≡◌, ◌≤◌, ◌+◌, length, drop, true, false, MatchOption};
ghost use Rattle.std.specs.List.{prefix_len, suffix_len};
ghost use Rattle.std.specs.Str.{IsCharBoundary};
ghost use Rattle.expr_token.specs.Tokens.{in_name};
ghost use Rattle.heex_token.specs.Tokens.{is_white};
ghost use Rattle.heex_reader.specs.Pieces.{white_before, without_end, trimmed, ends_on, before_end, last_is};

/// Whether a byte is white space.
pub(crate) fn is_white(byte: u8) -> bool
    ensures { result ≡ is_white byte }
{
    byte == b' ' || byte == b'\t' || byte == b'\n' || byte == b'\r'
}

/// Whether a byte stands in a name.
pub(crate) fn in_name(byte: u8) -> bool
    ensures { result ≡ in_name byte }
{
    byte.is_ascii_alphanumeric() || byte == b'_'
}

/// How many bytes of white space a text begins with.
pub(crate) fn white_before(bytes: &[u8]) -> usize
    ensures { result ≡ white_before bytes.now }
{
    let mut end = 0;
    'more: while end < bytes.len() && is_white(bytes[end]) {
        end += 1;
    }
    end
}

/// How many bytes the name has that a text begins with.
pub(crate) fn name_length(bytes: &[u8]) -> usize
    ensures { result ≡ prefix_len in_name bytes.now }
{
    let mut end = 0;
    'more: while end < bytes.len() && in_name(bytes[end]) {
        end += 1;
    }
    end
}

/// Whether the last byte of a text stands in a name.
pub(crate) fn ends_in_name(bytes: &[u8]) -> bool
    ensures { result ≡ last_is in_name bytes.now }
{
    let size = bytes.len();
    if size == 0 {
        return false;
    }
    in_name(bytes[size - 1])
}

// How many bytes of a text stand before the white space at its end.
fn length_before_white(bytes: &[u8]) -> usize
    ensures { result + suffix_len is_white bytes.now ≡ length bytes.now }
{
    let mut end = bytes.len();
    'more: while end > 0 && is_white(bytes[end - 1]) {
        end -= 1;
    }
    end
}

/// What stands behind so many bytes; nothing where there are fewer.
pub(crate) fn behind(text: &str, size: usize) -> &str
    requires { size ≤ length text.now → IsCharBoundary text.now size }
    ensures { result.now ≡ drop size text.now }
{
    if size > text.len() {
        return "";
    }
    &text[size..]
}

/// A text without the white space at its end.
pub(crate) fn without_end(text: &str) -> &str
    ensures { result.now ≡ without_end text.now }
{
    let end = length_before_white(text.as_bytes());
    &text[..end]
}

/// A text without the white space at both ends.
pub(crate) fn trimmed(text: &str) -> &str
    ensures { result.now ≡ trimmed text.now }
{
    let front = without_end(text);
    behind(front, white_before(front.as_bytes()))
}

/// What stands before these characters, where the text, but for white space, ends with them.
pub(crate) fn before_end<'a>(text: &'a str, word: &str) -> Option<&'a str>
    ensures { MatchOption result (ends_on word.now text.now ≡ false) (λ t. (ends_on word.now text.now ≡ true) × (t.now ≡ before_end word.now text.now)) }
{
    let front = without_end(text);
    if !front.as_bytes().ends_with(word.as_bytes()) {
        return None;
    }
    let size = front.len() - word.len();
    Some(&front[..size])
}
