//! Names of tags, and of modules.
ghost use Rattle.std.specs.Prelude.{◌≡◌};
ghost use Rattle.std.specs.Str.{bytes_eq};
ghost use Rattle.std.specs.Char.{is_ascii_uppercase};
ghost use Rattle.expr_token.specs.Tokens.{module_goes_on, module_of};
ghost use Rattle.heex_token.specs.Tokens.{first_is};
ghost use Rattle.heex_reader.specs.Contents.{kind_of_tag};
ghost use Rattle.heex_reader.specs.Tags.{may_bind, is_special, is_module, is_live_call};

use crate::white::in_name;

/// Whether an attribute says something of its own.
pub(crate) fn is_special(name: &[u8]) -> bool
    ensures { result ≡ is_special name.now }
{
    match name {
        [first, ..] => *first == b':',
        [] => false,
    }
}

/// Whether a `:let` may stand on a tag.
pub(crate) fn may_bind(name: &[u8]) -> bool
    ensures { result ≡ may_bind (kind_of_tag name.now) }
{
    match name {
        [first, ..] => *first == b'.' || *first == b':',
        [] => false,
    }
}

/// Whether a tag calls a LiveComponent.
pub(crate) fn is_live_call(name: &[u8]) -> bool
    ensures { result ≡ is_live_call (kind_of_tag name.now) }
{
    name == b".live_component".as_slice()
}

fn begins_with_upper(bytes: &[u8]) -> bool
    ensures { result ≡ first_is is_ascii_uppercase bytes.now }
{
    match bytes {
        [first, ..] => first.is_ascii_uppercase(),
        [] => false,
    }
}

// Whether a module goes on with the first of these bytes.
fn goes_on(bytes: &[u8]) -> bool
    ensures { result ≡ module_goes_on bytes.now }
{
    match bytes {
        [first, behind @ ..] => {
            if in_name(*first) {
                true
            } else if *first == b'.' {
                begins_with_upper(behind)
            } else {
                false
            }
        }
        [] => false,
    }
}

// Whether a module that begins a text is all of it.
fn goes_through(bytes: &[u8]) -> bool
    ensures { result ≡ bytes_eq (module_of bytes.now) bytes.now }
{
    let mut at = 0;
    'more: while at < bytes.len() {
        if !goes_on(bytes.split_at(at).1) {
            return false;
        }
        at += 1;
    }
    true
}

/// Whether a text is the name of a module.
pub(crate) fn is_module(bytes: &[u8]) -> bool
    ensures { result ≡ is_module bytes.now }
{
    begins_with_upper(bytes) && goes_through(bytes)
}
