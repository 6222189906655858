//! The numbers of places, by their keys.
ghost use Rattle.std.specs.Prelude.{◌≡◌, ◌<◌, ◌≤◌, ◌^◌, true, IfOk, OnErr};
ghost use Rattle.std.specs.Option.{SomeIff};
ghost use Rattle.std.specs.List.{list_all};
ghost use Rattle.std.specs.Char.{is_ascii_digit};
ghost use Rattle.diff_tree.specs.Grammar.{is_place};
ghost use Rattle.client_merge.specs.Reading.{number_of};

use crate::MergeFault;

/// The number of a place that is below this one.
pub(crate) fn place_below(key: &str, count: usize) -> Result<usize, MergeFault>
    ensures ok { IfOk result (λ n. (n ≡ number_of key.now) × (is_place key.now ≡ true) × (n < count)) }
    ensures bad { OnErr result (is_place key.now ≡ true → count ≤ number_of key.now) }
{
    match place_number(key) {
        Some(place) => if place < count {
            Ok(place)
        } else {
            Err(MergeFault::BadFrame)
        },
        None => Err(MergeFault::BadFrame),
    }
}

// The number of a place, where it fits.
fn place_number(key: &str) -> Option<usize>
    ensures { SomeIff result ((is_place key.now ≡ true) × (number_of key.now < 2 ^ 64)) (number_of key.now) }
{
    if !is_place(key) {
        return None;
    }
    match key.parse::<usize>() {
        Ok(place) => Some(place),
        Err(_) => None,
    }
}

// Whether a key is a decimal with no zero in front.
fn is_place(key: &str) -> bool
    ensures { result ≡ is_place key.now }
{
    match key.as_bytes() {
        [] => false,
        [b'0', rest @ ..] => rest.is_empty(),
        digits => are_digits(digits),
    }
}

fn are_digits(bytes: &[u8]) -> bool
    ensures { result ≡ list_all is_ascii_digit bytes.now }
{
    bytes.iter().all(|byte| byte.is_ascii_digit())
}
