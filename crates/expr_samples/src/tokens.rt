//! Texts and their tokens, with memory enough.
use expr_token::{Token, lex};
use std::alloc::{AllocError, Global};
use std::test::Fail;

// A token as the table writes it: what it carries, or its name.
fn write_token(out: &mut String, token: &Token) -> Result<(), AllocError> {
    match token {
        Token::Number(value) => write!(out, "{value}"),
        Token::Word { at: _, name } => write!(out, "{}", name.as_str()),
        Token::Function { at: _, name } => write!(out, "&{}", name.as_str()),
        Token::Atom(name) => write!(out, ":{}", name.as_str()),
        Token::Operator(op) => write!(out, "{op:?}"),
        Token::Quote(text) => write!(out, "\"{}", text.as_str()),
        Token::PartClosing(text) => write!(out, "}}{}", text.as_str()),
        _ => write!(out, "{token:?}"),
    }
}

// The tokens of a text with the byte of each, and behind a bar the byte of the innermost opening that is left.
fn listed(alloc: Global, text: &str) -> Result<String, Fail> {
    let tokens = lex(alloc, text)?;
    let mut out = String::new(alloc);
    for placed in tokens.list.as_slice() {
        write_token(&mut out, &placed.token)?;
        write!(out, "@{} ", placed.at)?;
    }
    if let Some(opened) = tokens.unclosed {
        write!(out, "| {}", opened.at)?;
    }
    Ok(out)
}

#[test]
fn tokens_are_as_long_as_they_can_be(rt: HostRuntime) -> Result<(), Fail> {
    let alloc = rt.alloc();
    for (text, wanted) in [
        ("", ""),
        (" \t\r\n", ""),
        ("1in", "1@0 Member@1 "),
        ("a<>b", "a@0 Concat@1 b@3 "),
        ("%{a:b}", "OpeningMap@0 a@2 :b@3 Closing(Curly)@5 "),
        ("%{a: b}", "OpeningMap@0 a@2 Colon@3 b@5 Closing(Curly)@6 "),
        (
            "Enum.count(@rows)",
            "&Enum.count@0 CallOpening@10 At@11 rows@12 Closing(Round)@16 ",
        ),
        ("A.do", "Foreign@0 Foreign@1 Foreign@2 "),
        (
            "f (x[1]) [2].b",
            "f@0 OpeningRound@2 x@3 IndexOpening@4 1@5 Closing(Square)@6 Closing(Round)@7 OpeningSquare@9 2@10 Closing(Square)@11 Dot@12 b@13 ",
        ),
        ("a é", "a@0 Foreign@2 Foreign@3 "),
        ("\"é\"", "\"é@0 QuoteEnd@3 "),
        ("1_000 1__0", "1000@0 1@6 __0@7 "),
        ("9223372036854775808", "BadNumber@0 "),
        ("\"a\\q\"", "\"a@0 Foreign@2 Foreign@3 QuoteEnd@4 "),
        ("\"a\\", "\"a@0 | 0"),
        (
            "\"a#{b}c\\t\"",
            "\"a@0 PartOpening@2 b@4 }c\t@5 QuoteEnd@9 ",
        ),
        (
            "\"a#{ {b} ",
            "\"a@0 PartOpening@2 OpeningCurly@5 b@6 Closing(Curly)@7 | 2",
        ),
        (
            "if x?(y), do: :a!=b",
            "If@0 &x?@3 CallOpening@5 y@6 Closing(Round)@7 Comma@8 DoColon@10 :a@14 Unequal@16 b@18 ",
        ),
    ] {
        let got = listed(alloc, text)?;
        assert_eq!(rt; got.as_str(), wanted, "at {text}");
    }
    Ok(())
}
