//! Characters of tokens.
ghost use Rattle.std.specs.Prelude.{◌≡◌, length};
ghost use Rattle.std.specs.List.{prefix_len};
ghost use Rattle.std.specs.Char.{is_ascii_digit, is_ascii_uppercase};
ghost use Rattle.expr_token.specs.Tokens.{is_white, begins_name, in_name, first_is, begins, name_of, digits_of, module_of};

/// Whether a byte is white space.
pub(crate) fn is_white(byte: u8) -> bool
    ensures { result ≡ is_white byte }
{
    byte == b' ' || byte == b'\t' || byte == b'\n' || byte == b'\r'
}

/// Whether a byte begins a name.
pub(crate) fn begins_name(byte: u8) -> bool
    ensures { result ≡ begins_name byte }
{
    byte.is_ascii_lowercase() || byte == b'_'
}

/// Whether a byte stands in a name.
pub(crate) fn in_name(byte: u8) -> bool
    ensures { result ≡ in_name byte }
{
    byte.is_ascii_alphanumeric() || byte == b'_'
}

/// Whether these bytes begin with a name, or a reserved word.
pub(crate) fn begins_with_name(rest: &[u8]) -> bool
    ensures { result ≡ first_is begins_name rest.now }
{
    match rest {
        [first, ..] => begins_name(*first),
        [] => false,
    }
}

/// Whether these bytes begin with an upper-case letter.
pub(crate) fn begins_with_upper(rest: &[u8]) -> bool
    ensures { result ≡ first_is is_ascii_uppercase rest.now }
{
    match rest {
        [first, ..] => first.is_ascii_uppercase(),
        [] => false,
    }
}

/// Whether these bytes begin with a digit.
pub(crate) fn begins_with_digit(rest: &[u8]) -> bool
    ensures { result ≡ first_is is_ascii_digit rest.now }
{
    match rest {
        [first, ..] => first.is_ascii_digit(),
        [] => false,
    }
}

/// Whether these bytes begin with a word.
pub(crate) fn begins_with(rest: &[u8], word: &[u8]) -> bool
    ensures { result ≡ begins word.now rest.now }
{
    rest.starts_with(word)
}

// How many bytes from the front on stand in a name.
fn run_length(rest: &[u8]) -> usize
    ensures { result ≡ prefix_len in_name rest.now }
{
    let mut end = 0;
    'more: while end < rest.len() && in_name(rest[end]) {
        end += 1;
    }
    end
}

/// How many bytes the name has that these bytes begin with.
pub(crate) fn name_length(rest: &[u8]) -> usize
    ensures { result ≡ length (name_of rest.now) }
{
    if begins_with_name(rest) {
        run_length(rest)
    } else {
        0
    }
}
