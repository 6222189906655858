//! The functions that an expression may call.
ghost use Rattle.std.specs.Prelude.{◌≡◌, ◌&&◌, nat_eq};
ghost use Rattle.std.specs.Str.{bytes_eq};
ghost use Rattle.expr_core.specs.Functions.{function_of, if_unknown, known, earlier};

use ast_core::Function;

// Whether a name and a number of arguments are those of a function.
fn is_row(name: &str, count: usize, own: &str, takes: usize) -> bool
    ensures { result ≡ (bytes_eq own.now name.now && nat_eq takes count) }
{
    if own != name {
        return false;
    }
    takes == count
}

/// The function of this name that takes so many arguments.
#[tactic(auto, unfolding(crate::specs::Functions::function_of))]
pub(crate) fn function_of(name: &str, count: usize) -> Option<Function>
    ensures { result ≡ function_of name.now count }
{
    if is_row(name, count, "length", 1) {
        return Some(Function::Length);
    }
    if is_row(name, count, "is_nil", 1) {
        return Some(Function::IsNil);
    }
    if is_row(name, count, "to_string", 1) {
        return Some(Function::ToString);
    }
    if is_row(name, count, "div", 2) {
        return Some(Function::Div);
    }
    if is_row(name, count, "rem", 2) {
        return Some(Function::Rem);
    }
    if is_row(name, count, "abs", 1) {
        return Some(Function::Abs);
    }
    if is_row(name, count, "max", 2) {
        return Some(Function::Max);
    }
    if is_row(name, count, "min", 2) {
        return Some(Function::Min);
    }
    if is_row(name, count, "Enum.count", 1) {
        return Some(Function::Count);
    }
    if is_row(name, count, "Enum.empty?", 1) {
        return Some(Function::IsEmpty);
    }
    if is_row(name, count, "Enum.join", 1) {
        return Some(Function::Join);
    }
    if is_row(name, count, "Enum.join", 2) {
        return Some(Function::Join);
    }
    if is_row(name, count, "Enum.reverse", 1) {
        return Some(Function::Reverse);
    }
    if is_row(name, count, "Map.get", 2) {
        return Some(Function::Get);
    }
    if is_row(name, count, "Map.get", 3) {
        return Some(Function::Get);
    }
    if is_row(name, count, "Map.has_key?", 2) {
        return Some(Function::HasKey);
    }
    None
}

/// The byte of a call, where it names no function.
pub(crate) fn if_unknown(at: usize, function: Option<Function>) -> Option<usize>
    ensures { result ≡ if_unknown at function }
{
    match function {
        Some(_) => None,
        None => Some(at),
    }
}

/// The function of a call. One that names no function stands in no answer.
pub(crate) fn known(function: Option<Function>) -> Function
    ensures { result ≡ known function }
{
    match function {
        Some(function) => function,
        None => Function::Length,
    }
}

/// The first of two places, where the former stands before the latter.
pub(crate) fn earlier(first: Option<usize>, second: Option<usize>) -> Option<usize>
    ensures { result ≡ earlier first second }
{
    match first {
        Some(at) => Some(at),
        None => second,
    }
}
