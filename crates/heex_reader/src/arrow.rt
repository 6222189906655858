//! The arrow of a generator.
ghost use Rattle.std.specs.Prelude.{◌≡◌};
ghost use Rattle.heex_reader.specs.Pieces.{quoting_behind, is_outside, is_arrow, arrow_from};
ghost use Rattle.heex_reader.specs.declared.arrow.Quoting.TheVariants.{Outside};

/// Where a byte stands.
#[derive(Clone, Copy)]
pub(crate) enum Quoting {
    /// Outside of texts.
    Outside,
    /// In a text.
    Quoted,
    /// Behind a `\` in a text.
    Escaped,
}

// Where the byte behind this one stands.
fn behind(quoting: Quoting, byte: u8) -> Quoting
    ensures { result ≡ quoting_behind quoting byte }
{
    match quoting {
        Quoting::Outside => {
            if byte == b'"' {
                Quoting::Quoted
            } else {
                Quoting::Outside
            }
        }
        Quoting::Quoted => {
            if byte == b'"' {
                Quoting::Outside
            } else if byte == b'\\' {
                Quoting::Escaped
            } else {
                Quoting::Quoted
            }
        }
        Quoting::Escaped => Quoting::Quoted,
    }
}

fn is_outside(quoting: Quoting) -> bool
    ensures { result ≡ is_outside quoting }
{
    match quoting {
        Quoting::Outside => true,
        Quoting::Quoted => false,
        Quoting::Escaped => false,
    }
}

// Whether a text that stands here begins with an arrow.
fn is_arrow(quoting: Quoting, rest: &[u8]) -> bool
    ensures { result ≡ is_arrow quoting rest.now }
{
    is_outside(quoting) && rest.starts_with(b"<-")
}

/// How many bytes stand before the first `<-` outside of texts.
pub(crate) fn find_arrow(bytes: &[u8]) -> Option<usize>
    ensures { result ≡ arrow_from Outside bytes.now }
{
    let mut quoting = Quoting::Outside;
    let mut at = 0;
    'more: while at < bytes.len() {
        if is_arrow(quoting, bytes.split_at(at).1) {
            return Some(at);
        }
        quoting = behind(quoting, bytes[at]);
        at += 1;
    }
    None
}
