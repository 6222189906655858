use crate::command::offline;
use crate::status::Status;
use std::alloc::Global;
use std::test::Fail;
use text_core::{
    ByKey, Bytes, Failing, Folder, HeldFolder, HeldSink, HeldSource, OutOfMemory, Seq, Sink,
    Source, Text,
};

const MANIFEST: &str =
    "{\"version\":1,\"views\":[{\"path\":\"/\",\"template\":\"home\",\"mount\":[[\"assign\",\"n\",\"0\"],[\"assign\",\"count\",\"42\"]]}]}";

const HELLO: &str = "browser A\njoin A /\nrun A\nhtml A\n";

const TWICE: &str = "browser A\njoin A /\nrun A\nhtml A\nhtml A\n";

const TWO_BROWSERS: &str =
    "browser A\nbrowser B\njoin A /\njoin B /\nrun A\nrun B\nhtml A\nframes B\nframes B\n";

const TWO_FRAMES: &str =
    "== A html 8\n<p>0</p>\n== B frames 1\n[\"1\",\"1\",\"lv:B\",\"phx_reply\",{\"response\":{\"rendered\":{\"0\":\"0\",\"s\":[\"<p>\",\"</p>\"]}},\"status\":\"ok\"}]\n== B frames 0\n";

const USAGE: &str =
    "usage: live_cli compile DIR | render DIR PATH | replay DIR | storm SEED WORKERS | serve DIR ADDR [--links N]\n";

fn folder(alloc: Global, template: &str) -> Result<HeldFolder, OutOfMemory> {
    let mut files = ByKey::new(alloc);
    files.insert(
        Text::copy_of(alloc, "home.html.heex")?,
        Bytes::copy_of(alloc, template.as_bytes())?,
    )?;
    files.insert(
        Text::copy_of(alloc, "bundle.json")?,
        Bytes::copy_of(alloc, MANIFEST.as_bytes())?,
    )?;
    Ok(HeldFolder::new(files))
}

fn hello<F: Folder, R: Source, S: Sink>(
    alloc: Global,
    files: &mut F,
    source: &mut R,
    out: &mut S,
) -> Status {
    offline(alloc, &["replay", "hello"], files, source, out)
}

// The list of one call that is to fail.
fn only(alloc: Global, call: u64) -> Result<Seq<u64>, OutOfMemory> {
    let mut calls = Seq::new(alloc);
    calls.push(call)?;
    Ok(calls)
}

#[test]
fn pages(rt: HostRuntime) -> Result<(), Fail> {
    let alloc = rt.alloc();
    for (template, script, wanted, text) in [
        (
            "<p>{@n}</p>",
            HELLO,
            Status::Done,
            "== A html 8\n<p>0</p>\n",
        ),
        ("", HELLO, Status::Done, "== A html 0\n\n"),
        ("<p>{@n}</p>", TWO_BROWSERS, Status::Done, TWO_FRAMES),
        (
            "<p>a{@n} b{@count} c</p>",
            HELLO,
            Status::Done,
            "== A html 15\n<p>a0 b42 c</p>\n",
        ),
        (
            "{@count}{@n} x{@n}",
            HELLO,
            Status::Done,
            "== A html 6\n420 x0\n",
        ),
        (
            "{@count * 2 - @n}{@n == 0 && nil}",
            HELLO,
            Status::Done,
            "== A html 2\n84\n",
        ),
        ("{@n}{@m}", HELLO, Status::Done, "== A down\n"),
        ("{@n}", "browser A\nhtml A\n", Status::Done, "== A down\n"),
        ("{@n}", "# nothing\n\n", Status::Done, ""),
        ("<p>{@m +}</p>", HELLO, Status::Refused, "refused: NotYet\n"),
        (
            "<.card>{@n}</.card>",
            "browser A\njump A\n",
            Status::Refused,
            "refused: NotYet\n",
        ),
        (
            "{@n}",
            "browser A\njump A\nhtml A\n",
            Status::BadScript,
            "script line 2\n",
        ),
    ] {
        let mut files = folder(alloc, template)?;
        let mut source = HeldSource::new(script.as_bytes());
        let mut out = HeldSink::new(alloc);
        let status = hello(alloc, &mut files, &mut source, &mut out);
        assert_eq!(rt; status, wanted);
        assert_eq!(rt; out.as_slice(), text.as_bytes());
    }
    Ok(())
}

#[test]
fn usage(rt: HostRuntime) -> Result<(), Fail> {
    let alloc = rt.alloc();
    let rows: [&[&str]; 6] = [
        &[],
        &["replay"],
        &["replay", "-d"],
        &["replay", "d", "e"],
        &["Replay", "d"],
        &["compile", "d"],
    ];
    for words in rows {
        let mut files = folder(alloc, "{@n}")?;
        let mut source = HeldSource::new(HELLO.as_bytes());
        let mut out = HeldSink::new(alloc);
        let status = offline(alloc, words, &mut files, &mut source, &mut out);
        assert_eq!(rt; status, Status::Usage);
        assert_eq!(rt; out.as_slice(), USAGE.as_bytes());
    }
    Ok(())
}

#[test]
fn failing_folder(rt: HostRuntime) -> Result<(), Fail> {
    let alloc = rt.alloc();
    for call in 1..=3 {
        let mut files = Failing::new(folder(alloc, "{@n}")?, only(alloc, call)?, 0);
        let mut source = HeldSource::new(HELLO.as_bytes());
        let mut out = HeldSink::new(alloc);
        let status = hello(alloc, &mut files, &mut source, &mut out);
        assert_eq!(rt; status, Status::ReadFault);
        assert!(rt; out.as_slice().is_empty());
    }
    Ok(())
}

#[test]
fn failing_source(rt: HostRuntime) -> Result<(), Fail> {
    let alloc = rt.alloc();
    for call in 1..=2 {
        let mut files = folder(alloc, "{@n}")?;
        let mut source = Failing::new(HeldSource::new(HELLO.as_bytes()), only(alloc, call)?, 0);
        let mut out = HeldSink::new(alloc);
        let status = hello(alloc, &mut files, &mut source, &mut out);
        assert_eq!(rt; status, Status::ReadFault);
        assert!(rt; out.as_slice().is_empty());
    }
    Ok(())
}

#[test]
fn failing_sink(rt: HostRuntime) -> Result<(), Fail> {
    let alloc = rt.alloc();
    for (template, script, wanted, passing, front) in [
        ("<p>{@n}</p>", TWICE, Status::WriteFault, 0, ""),
        ("<p>{@n}</p>", TWICE, Status::WriteFault, 5, "== A "),
        ("<p>{@n</p>", HELLO, Status::Refused, 0, ""),
        ("<p>{@n</p>", HELLO, Status::Refused, 5, "refus"),
        ("{@n}", "jump A\n", Status::BadScript, 0, ""),
        ("{@n}", "jump A\n", Status::BadScript, 5, "scrip"),
    ] {
        let mut files = folder(alloc, template)?;
        let mut source = HeldSource::new(script.as_bytes());
        let mut out = Failing::new(HeldSink::new(alloc), only(alloc, 1)?, passing);
        let status = hello(alloc, &mut files, &mut source, &mut out);
        assert_eq!(rt; status, wanted);
        assert_eq!(rt; out.inner().as_slice(), front.as_bytes());
    }
    Ok(())
}

#[test]
fn failing_second_write(rt: HostRuntime) -> Result<(), Fail> {
    let alloc = rt.alloc();
    let mut files = folder(alloc, "<p>{@n}</p>")?;
    let mut source = HeldSource::new(TWICE.as_bytes());
    let mut out = Failing::new(HeldSink::new(alloc), only(alloc, 2)?, 4);
    let status = hello(alloc, &mut files, &mut source, &mut out);
    assert_eq!(rt; status, Status::WriteFault);
    assert_eq!(rt;
        out.inner().as_slice(),
        b"== A html 8\n<p>0</p>\n== A".as_slice()
    );
    Ok(())
}
