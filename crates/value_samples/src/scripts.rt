use script_core::{Line, ScriptFault, read_script};
use std::alloc::Global;
use std::test::Fail;
use text_core::{Bytes, OutOfMemory};

// How many lines do something, or the number of the bad line.
fn outcome(alloc: Global, text: &[u8]) -> Result<Result<usize, u32>, OutOfMemory> {
    match read_script(alloc, text) {
        Ok(script) => Ok(Ok(script.len())),
        Err(ScriptFault::BadLine(n)) => Ok(Err(n)),
        Err(ScriptFault::OutOfMemory) => Err(OutOfMemory),
    }
}

#[test]
fn table(rt: HostRuntime) -> Result<(), Fail> {
    let alloc = rt.alloc();
    let rows: [(&[u8], Result<usize, u32>); 74] = [
        (b"", Ok(0)),
        (b"\n", Ok(0)),
        (b"\n\n\n", Ok(0)),
        (b"#", Ok(0)),
        (b"# one\n#two\n\n#", Ok(0)),
        (b"browser A\n", Ok(1)),
        (b"browser A", Ok(1)),
        (b"browser A\njoin A /\nrun A\nhtml A\nframes A\n", Ok(5)),
        (b"browser A\nrun A\nhtml A\nframes A\nframes A", Ok(5)),
        (b"browser A\nbrowser a\nbrowser 7\nhtml a\n", Ok(4)),
        (b"browser abcdEFG8\n", Ok(1)),
        (b"browser abcdEFG89\n", Err(1)),
        (b"browser \n", Err(1)),
        (b"browser\n", Err(1)),
        (b"browser A_B\n", Err(1)),
        (b"browser A-B\n", Err(1)),
        (b"browser \xc3\xa4\n", Err(1)),
        (b"browser A B\n", Err(1)),
        (b"browser  A\n", Err(1)),
        (b"browser A \n", Err(1)),
        (b" browser A\n", Err(1)),
        (b"browser\tA\n", Err(1)),
        (b"browser A\r\n", Err(1)),
        (b"\r\n", Err(1)),
        (b" \n", Err(1)),
        (b" # no comment\n", Err(1)),
        (b"Browser A\n", Err(1)),
        (b"BROWSER A\n", Err(1)),
        (b"browser A\nbrowser A\n", Err(2)),
        (b"run A\n", Err(1)),
        (b"run A\nbrowser A\n", Err(1)),
        (b"browser A\nhtml a\n", Err(2)),
        (b"browser A\njoin A\n", Err(2)),
        (b"browser A\njoin A \n", Err(2)),
        (b"browser A\njoin A /x\n", Err(2)),
        (b"browser A\njoin A  /\n", Err(2)),
        (b"browser A\njoin A / \n", Err(2)),
        (b"browser A\njoin A /\njoin A /\n", Ok(3)),
        (b"join A /\nbrowser A\n", Err(1)),
        (b"browser A\nstep A\nstep A\nrun A\n", Ok(4)),
        (b"browser A\nstep\n", Err(2)),
        (b"browser A\nstep B\n", Err(2)),
        (b"browser A\nstep A 2\n", Err(2)),
        (b"browser A\nevent A click inc {}\n", Ok(2)),
        (
            b"browser A\nevent A click inc {\"a\": [1, -2],  \"b\": \"x y\"}\n",
            Ok(2),
        ),
        (b"browser A\nevent A click inc  null \n", Ok(2)),
        (
            b"browser A\nevent A \xc3\xa4 f\xc3\xb6rm \"\xc3\xbc\"",
            Ok(2),
        ),
        (b"browser A\nevent A click form 1\n", Ok(2)),
        (b"browser A\nevent A form x {}\n", Err(2)),
        (b"browser A\nevent A forms x {}\n", Ok(2)),
        (b"browser A\nevent B click inc {}\n", Err(2)),
        (b"event A click inc {}\n", Err(1)),
        (b"browser A\nevent A click inc {\n", Err(2)),
        (b"browser A\nevent A click inc {} {}\n", Err(2)),
        (b"browser A\nevent A click inc x\n", Err(2)),
        (b"browser A\nevent A click inc \n", Err(2)),
        (b"browser A\nevent A click inc\n", Err(2)),
        (b"browser A\nevent A click {}\n", Err(2)),
        (b"browser A\nevent A  inc {}\n", Err(2)),
        (b"browser A\nevent A click  {}\n", Err(2)),
        (b"browser A\nevent  A click inc {}\n", Err(2)),
        (b"browser A\nevent A_B click inc {}\n", Err(2)),
        (b"browser A\nevent A click inc 1.5\n", Err(2)),
        (b"browser A\nevent A click inc [1e2]\n", Err(2)),
        (b"browser A\nevent A click inc -0\n", Err(2)),
        (b"browser A\nevent A click inc 9223372036854775807\n", Ok(2)),
        (
            b"browser A\nevent A click inc 9223372036854775808\n",
            Err(2),
        ),
        (
            b"browser A\nevent A click inc -9223372036854775808\n",
            Ok(2),
        ),
        (b"browser A\nrun A /\n", Err(2)),
        (b"browser A\nclick A\n", Err(2)),
        (b"# \xff\nbrowser A\n", Err(1)),
        (b"browser A\n# \xc3\xa4\r\nrun A", Ok(2)),
        (b"# one\n\nbrowser A\n# four\n\nframes B\nrun C\n", Err(6)),
        (b"browser A\n\n\nx", Err(4)),
    ];
    for (text, want) in rows {
        assert_eq!(rt; outcome(alloc, text)?, want);
    }
    Ok(())
}

#[test]
fn lines_are_kept(rt: HostRuntime) -> Result<(), Fail> {
    let alloc = rt.alloc();
    let script = read_script(
        alloc,
        b"# two browsers\nbrowser A\nbrowser B2\njoin B2 /\n\nevent A click inc {\"by\":  2}\nstep B2",
    )?;
    let lines = script.as_slice();
    assert_eq!(rt; lines.len(), 5);
    assert!(rt; matches!(&lines[0], Line::Browser { name } if name.as_str() == "A"));
    assert!(rt; matches!(&lines[1], Line::Browser { name } if name.as_str() == "B2"));
    assert!(rt;
        matches!(&lines[2], Line::Join { name, url } if name.as_str() == "B2" && url.as_str() == "/")
    );
    assert!(rt;
        matches!(&lines[3], Line::Event { name, kind, .. } if name.as_str() == "A" && kind.as_str() == "click")
    );
    assert!(rt;
        matches!(&lines[3], Line::Event { event, value, .. } if event.as_str() == "inc" && value.as_str() == "{\"by\":  2}")
    );
    assert!(rt; matches!(&lines[4], Line::Step { name } if name.as_str() == "B2"));
    Ok(())
}

// A browser, and an event whose value is lists in lists.
fn nested(alloc: Global, levels: u32) -> Result<Bytes, OutOfMemory> {
    let mut text = Bytes::copy_of(alloc, b"browser A\nevent A click inc ")?;
    for _ in 0..levels {
        text.push_slice(b"[")?;
    }
    for _ in 0..levels {
        text.push_slice(b"]")?;
    }
    Ok(text)
}

#[test]
fn values_nest_at_most_100_deep(rt: HostRuntime) -> Result<(), Fail> {
    let alloc = rt.alloc();
    for (levels, want) in [(100, Ok(2)), (101, Err(2)), (128, Err(2))] {
        assert_eq!(rt; outcome(alloc, nested(alloc, levels)?.as_slice())?, want);
    }
    Ok(())
}

// A script that declares browsers `1`, `2` and so on.
fn browsers(alloc: Global, many: u32) -> Result<Bytes, OutOfMemory> {
    let mut text = Bytes::new(alloc);
    for n in 0..many {
        text.push_slice(b"browser ")?;
        text.push_slice(n.to_string(alloc)?.as_bytes())?;
        text.push_slice(b"\n")?;
    }
    Ok(text)
}

#[test]
fn at_most_64_browsers(rt: HostRuntime) -> Result<(), Fail> {
    let alloc = rt.alloc();
    assert_eq!(rt; outcome(alloc, browsers(alloc, 64)?.as_slice())?, Ok(64));
    assert_eq!(rt; outcome(alloc, browsers(alloc, 65)?.as_slice())?, Err(65));
    Ok(())
}

// Two empty lines, and a comment that fills the text to that many bytes.
fn comment(alloc: Global, many: usize) -> Result<Bytes, OutOfMemory> {
    let mut text = Bytes::new(alloc);
    text.push_slice(b"\n\n")?;
    let line = vec![in alloc; b'#'; many]?;
    text.push_slice(line.as_slice())?;
    Ok(text)
}

#[test]
fn at_most_16_mebibytes(rt: HostRuntime) -> Result<(), Fail> {
    let alloc = rt.alloc();
    let mut text = comment(alloc, 16_777_214)?;
    assert_eq!(rt; outcome(alloc, text.as_slice())?, Ok(0));
    text.push_slice(b"#")?;
    assert_eq!(rt; outcome(alloc, text.as_slice())?, Err(3));
    Ok(())
}
