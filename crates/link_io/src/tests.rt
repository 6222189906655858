//! The links and listeners in memory through their bounds, and the adapters over loopback.

use crate::{
    Accepted, Answer, FailingLink, FailingListener, Got, HeldLink, HeldListener, Link, Listener,
    Look, Sent, WebListener,
};
use std::alloc::Global;
use std::io::{Read, Write};
use std::net::TcpStream;
use std::process::Abort;
use std::test::Fail;
use std::time::Duration;
use std::{io, str};
use text_core::{Bytes, Seq};

/// An answer as a text, with no memory.
fn shown(got: &Got) -> &str {
    match got {
        Got::Text(text) => str::from_utf8(text.as_slice()).unwrap_or("?"),
        Got::Quiet => "-quiet-",
        Got::Closed => "-closed-",
        Got::Failed => "-failed-",
        Got::OutOfMemory => "-memory-",
    }
}

fn receives<K: Link>(rt: &impl Abort, alloc: Global, link: &mut K, want: &[&str]) {
    for text in want {
        assert_eq!(rt; shown(&link.receive(alloc)), *text);
    }
}

fn numbers(alloc: Global, numbers: &[u64]) -> Result<Seq<u64>, Fail> {
    Ok(Seq::from_vec(Vec::from_slice(alloc, numbers)?))
}

/// A link that gives `join`, Quiet and `event`.
fn held(alloc: Global) -> Result<HeldLink, Fail> {
    let mut link = HeldLink::new(alloc);
    link.push(Look::Text(Bytes::copy_of(alloc, b"join")?))?;
    link.push(Look::Quiet)?;
    link.push(Look::Text(Bytes::copy_of(alloc, b"event")?))?;
    Ok(link)
}

#[test]
fn link_in_memory(rt: HostRuntime) -> Result<(), Fail> {
    let alloc = rt.alloc();
    let mut link = held(alloc)?;
    receives(
        &rt,
        alloc,
        &mut link,
        &["join", "-quiet-", "event", "-closed-", "-closed-"],
    );
    assert_eq!(rt; link.send(alloc, b"frame"), Sent::Whole);
    assert_eq!(rt; (link.quiets(), link.faults()), (1, 0));
    assert_eq!(rt; link.given().len(), 5);
    for text in link.sent() {
        assert_eq!(rt; text.as_slice(), b"frame".as_slice());
    }
    assert_eq!(rt; link.sent().len(), 1);
    link.close();
    assert!(rt; link.is_closed());
    Ok(())
}

#[test]
fn failing_link(rt: HostRuntime) -> Result<(), Fail> {
    let alloc = rt.alloc();
    let mut link = FailingLink::new(
        held(alloc)?,
        numbers(alloc, &[1, 3])?,
        numbers(alloc, &[2])?,
    );
    receives(
        &rt,
        alloc,
        &mut link,
        &[
            "-failed-", "join", "-failed-", "-quiet-", "event", "-closed-",
        ],
    );
    assert_eq!(rt; link.send(alloc, b"one"), Sent::Whole);
    assert_eq!(rt; link.send(alloc, b"two"), Sent::Failed);
    assert_eq!(rt; (link.quiets(), link.faults()), (1, 3));
    assert_eq!(rt; link.held().sent().len(), 1);
    link.close();
    Ok(())
}

/// What a listener answers, and how many texts its links give.
fn accepts<N: Listener>(rt: &impl Abort, alloc: Global, listener: &mut N, want: &[Answer]) {
    for answer in want {
        let got = match listener.accept(alloc) {
            Accepted::Link(mut link) => {
                receives(rt, alloc, &mut link, &["join"]);
                Some(Answer::Link)
            }
            Accepted::Stop => Some(Answer::Stop),
            Accepted::Failed => Some(Answer::Failed),
            Accepted::OutOfMemory => None,
        };
        assert_eq!(rt; got, Some(*answer));
    }
}

#[test]
fn listeners_in_memory(rt: HostRuntime) -> Result<(), Fail> {
    let alloc = rt.alloc();
    let mut listener = HeldListener::new(alloc);
    listener.push(held(alloc)?)?;
    let want = [Answer::Link, Answer::Stop, Answer::Stop];
    accepts(&rt, alloc, &mut listener, &want);
    assert_eq!(rt; listener.given(), want.as_slice());
    listener.push(held(alloc)?)?;
    let mut failing = FailingListener::new(listener, numbers(alloc, &[1])?);
    accepts(
        &rt,
        alloc,
        &mut failing,
        &[Answer::Failed, Answer::Link, Answer::Stop],
    );
    assert_eq!(rt; failing.faults(), 1);
    assert_eq!(rt; failing.held().given().len(), 6);
    Ok(())
}

/// The opening request of RFC 6455, section 1.2.
const REQUEST: &[u8] =
    b"GET /chat HTTP/1.1\r\nHost: server.example.com\r\nUpgrade: websocket\r\nConnection: Upgrade\r\nSec-WebSocket-Key: dGhlIHNhbXBsZSBub25jZQ==\r\nOrigin: http://example.com\r\nSec-WebSocket-Version: 13\r\n\r\n";

/// Its answer's key, of RFC 6455, section 1.3.
const ACCEPT: &str = "s3pPLMBiTxaQ9kYGzzhZRbK+xOo=";

/// `Hello` masked and unmasked, of RFC 6455, section 5.7.
const MASKED: &[u8] = &[
    0x81, 0x85, 0x37, 0xfa, 0x21, 0x3d, 0x7f, 0x9f, 0x4d, 0x51, 0x58,
];

const UNMASKED: [u8; 7] = [0x81, 0x05, 0x48, 0x65, 0x6c, 0x6c, 0x6f];

/// A close with code 1000, masked by a key of zeros, and its unmasked echo.
const CLOSE: &[u8] = &[0x88, 0x82, 0, 0, 0, 0, 0x03, 0xe8];

const CLOSED: [u8; 4] = [0x88, 0x02, 0x03, 0xe8];

/// The head of a response, up to its empty line.
fn read_head(alloc: Global, stream: &mut TcpStream) -> Result<Vec<u8>, Fail> {
    let mut head = Vec::new(alloc);
    for _ in 0..1000 {
        let mut byte = [0u8; 1];
        stream.read_exact(&mut byte)?;
        head.push(byte[0])?;
        if head.as_slice().ends_with(b"\r\n\r\n") {
            return Ok(head);
        }
    }
    Err("no end of the head")?
}

fn client(rt: &HostRuntime, address: &str, first: &[u8]) -> io::Result<TcpStream> {
    let mut stream = TcpStream::connect(rt, address)?;
    stream.set_read_timeout(Some(Duration::from_secs(10)))?;
    stream.write_all(first)?;
    Ok(stream)
}

#[test]
fn loopback(rt: HostRuntime) -> Result<(), Fail> {
    let alloc = rt.alloc();
    let mut listener = WebListener::bind(rt.clone()?, "127.0.0.1:0", Some(1));
    let port = listener.port().ok_or("no port")?;
    let address = format!(in alloc; "127.0.0.1:{port}")?;
    let _noise = client(&rt, address.as_str(), b"GET / HTTP/1.1\r\n\r\n")?;
    let mut stream = client(&rt, address.as_str(), REQUEST)?;
    let Accepted::Link(mut link) = listener.accept(alloc) else {
        return Err("no link")?;
    };
    let head = read_head(alloc, &mut stream)?;
    let head = str::from_utf8(head.as_slice()).unwrap_or("");
    assert!(rt; head.starts_with("HTTP/1.1 101 "), "{head}");
    assert!(rt; head.contains(ACCEPT), "{head}");
    speak(&rt, alloc, &mut stream, &mut link)?;
    accepts(&rt, alloc, &mut listener, &[Answer::Stop]);
    let mut refused = WebListener::bind(rt.clone()?, address.as_str(), None);
    assert_eq!(rt; refused.faults(), 0);
    accepts(&rt, alloc, &mut refused, &[Answer::Failed]);
    assert_eq!(rt; (listener.faults(), refused.faults()), (0, 1));
    Ok(())
}

/// A text each way, a quiet look, and the end.
fn speak<K: Link>(
    rt: &impl Abort,
    alloc: Global,
    stream: &mut TcpStream,
    link: &mut K,
) -> Result<(), Fail> {
    stream.write_all(MASKED)?;
    receives(rt, alloc, link, &["Hello", "-quiet-"]);
    assert_eq!(rt; link.send(alloc, b"Hello"), Sent::Whole);
    let mut frame = [0u8; 7];
    stream.read_exact(&mut frame)?;
    assert_eq!(rt; frame, UNMASKED);
    assert_eq!(rt; link.send(alloc, &[0xff]), Sent::Failed);
    stream.write_all(CLOSE)?;
    receives(rt, alloc, link, &["-closed-", "-closed-"]);
    link.close();
    let mut last = [0u8; 4];
    stream.read_exact(&mut last)?;
    assert_eq!(rt; last, CLOSED);
    assert_eq!(rt; (link.quiets(), link.faults()), (1, 1));
    Ok(())
}
