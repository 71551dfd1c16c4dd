// What the reader gives: the same requests however the reads cut a stream, and why a stream ends.
ghost use Rattle.std.specs.Prelude.{◌<◌};

use crate::texts::push;
use cc_base::{Failed, Source};
use rest_stream::{RawRequest, Reader, Stop};
use std::alloc::Global;
use std::process::Abort;
use std::str;
use test_fakes::{Failing, MemorySource};

// A source that gives at most `next` bytes by its next read, and at most `later` bytes by each
// other.
#[derive(Drop)]
struct Narrow {
    inner: MemorySource,
    next: usize,
    later: usize,
    ghost some: { 0 < next },
    ghost more: { 0 < later },
}

impl Source for Narrow {
    ghost faults = { λ s. ⟦<MemorySource as Source>⟧.faults s.inner };

    ghost left = { λ s. ⟦<MemorySource as Source>⟧.left s.inner };

    ghost beside = { λ s. ⟦<MemorySource as Source>⟧.beside s.inner };

    fn read(&mut self, buf: &mut [u8]) -> Result<usize, Failed> {
        let n = buf.len().min(self.next);
        self.next = self.later;
        self.inner.read(&mut buf[..n])
    }
}

fn source(rt: &impl Abort, alloc: Global, bytes: &[u8], next: usize, later: usize) -> Narrow
    requires next { 0 < next }
    requires later { 0 < later }
{
    let bytes = bytes.to_vec(alloc).expect(rt, "memory");
    Narrow {
        inner: MemorySource::new(bytes),
        next,
        later,
    }
}

fn push_bytes(rt: &impl Abort, text: &mut String, bytes: &[u8]) {
    push(rt, text, str::from_utf8(bytes).unwrap_or("?"));
}

fn push_request(rt: &impl Abort, text: &mut String, raw: &RawRequest) {
    push_bytes(rt, text, raw.method.as_slice());
    push(rt, text, " ");
    push_bytes(rt, text, raw.target.as_slice());
    if let Some(key) = &raw.key {
        push(rt, text, " key ");
        push_bytes(rt, text, key.as_slice());
    }
    push(rt, text, " body ");
    push_bytes(rt, text, raw.body.as_slice());
    push(rt, text, "\n");
}

// The requests of a stream, one a line, and why it ends.
fn told(rt: &impl Abort, alloc: Global, mut source: Narrow) -> String {
    let mut text = String::new(alloc);
    let mut reader = Reader::new(alloc).expect(rt, "memory");
    for _ in 0..20 {
        match reader.next(alloc, &mut source).into_result() {
            Ok(raw) => {
                push_request(rt, &mut text, &raw);
                if raw.closes {
                    push(rt, &mut text, "closes");
                    return text;
                }
            }
            Err(why) => {
                let why = format!(in alloc; "{why:?}").expect(rt, "memory");
                push(rt, &mut text, why.as_str());
                return text;
            }
        }
    }
    panic!(rt; "too many requests")
}

// Requests, and what the reader tells of each.
const TEN: [(&str, &str); 10] = [
    ("GET /a HTTP/1.1\r\n\r\n", "GET /a body "),
    (
        "POST /b?x=1 HTTP/1.1\nUser-Task-ID:  7 \r\ncontent-length: 3\r\nUSER-TASK-ID: 8\n\nxyz",
        "POST /b?x=1 key 7 body xyz",
    ),
    (
        "\r\n\nGET /c HTTP/1.1\r\nConnection: keep-alive\r\n\r\n",
        "GET /c body ",
    ),
    (
        "PUT /d HTTP/1.1\r\nContent-Length: 02\r\nContent-Length: 02\r\n\r\n\r\n",
        "PUT /d body \r\n",
    ),
    ("GET /e HTTP/1.1\r\na:\r\nb:  \t\r\n\r\n", "GET /e body "),
    (
        "GET /f HTTP/1.1\r\nConnection: closed\r\n\r\n",
        "GET /f body ",
    ),
    ("G-T * HTTP/1.1\r\nContent-Length: 0\r\n\r\n", "G-T * body "),
    ("GET /h HTTP/1.1\r\nClose: close\r\n\r\n", "GET /h body "),
    (
        "POST /i HTTP/1.1\r\ncontent-LENGTH:\t4 \r\n\r\nGET ",
        "POST /i body GET ",
    ),
    (
        "GET /j HTTP/1.1\r\nConnection: a\r\nconnection: CLOSE\r\n\r\n",
        "GET /j body ",
    ),
];

// The stream of these requests, and what is told of the first `count` of them.
fn stream(rt: &impl Abort, alloc: Global, count: usize) -> (String, String) {
    let mut bytes = String::new(alloc);
    let mut want = String::new(alloc);
    for (request, line) in &TEN[..count.min(10)] {
        push(rt, &mut bytes, request);
        push(rt, &mut want, line);
        push(rt, &mut want, "\n");
    }
    (bytes, want)
}

#[test]
fn ten_requests_are_the_same_however_they_are_cut(rt: HostRuntime) {
    let alloc = rt.alloc();
    let (bytes, mut want) = stream(&rt, alloc, 10);
    push(&rt, &mut want, "closes");
    for cut in 1..bytes.len() + 1 {
        let text = told(&rt, alloc, source(&rt, alloc, bytes.as_bytes(), cut, 4096));
        assert_eq!(rt;
            text.as_str(),
            want.as_str(),
            "the first read gives {cut} bytes"
        );
    }
    for most in [1, 2, 3, 5, 7, 64] {
        let text = told(&rt, alloc, source(&rt, alloc, bytes.as_bytes(), most, most));
        assert_eq!(rt;
            text.as_str(),
            want.as_str(),
            "each read gives {most} bytes"
        );
    }
}

#[test]
fn an_input_that_ends_inside_a_request_is_truncated(rt: HostRuntime) {
    let alloc = rt.alloc();
    for (whole, (request, _)) in TEN[..9].iter().enumerate() {
        let (before, lines) = stream(&rt, alloc, whole);
        for part in 0..request.len() {
            let mut bytes = before.as_bytes().to_vec(alloc).expect(&rt, "memory");
            bytes
                .extend_from_slice(&request.as_bytes()[..part])
                .expect(&rt, "memory");
            let end = if part == 0 { "End" } else { "Truncated" };
            let want = format!(in alloc; "{lines}{end}").expect(&rt, "memory");
            let text = told(&rt, alloc, source(&rt, alloc, bytes.as_slice(), 1, 1));
            assert_eq!(rt; text.as_str(), want.as_str(), "{part} bytes of {request:?}");
        }
    }
}

fn repeated(
    rt: &impl Abort,
    alloc: Global,
    front: &str,
    piece: &str,
    count: usize,
    back: &str,
) -> String {
    let mut text = String::from_str(alloc, front).expect(rt, "memory");
    for _ in 0..count {
        push(rt, &mut text, piece);
    }
    push(rt, &mut text, back);
    text
}

const LINE: &str = "GET / HTTP/1.1\r\n";

// A first line, a piece of the rest and how often it stands, what stands behind it, and what is
// told.
const REFUSED: [(&str, &str, usize, &str, &str); 27] = [
    (LINE, "Content-Length: x\r\n", 1, "\r\n", "BadLength"),
    (
        LINE,
        "Content-Length: 1\r\nContent-Length: 01\r\n",
        1,
        "\r\n",
        "BadLength",
    ),
    (
        LINE,
        "Content-Length: 10000000000000000000\r\n",
        1,
        "\r\n",
        "BadLength",
    ),
    (LINE, "Content-Length:\r\n", 1, "\r\n", "BadLength"),
    (LINE, "Content-Length: +1\r\n", 1, "\r\n", "BadLength"),
    (
        LINE,
        "Content-Length: x\r\nTransfer-Encoding: chunked\r\n",
        1,
        "\r\n",
        "BadLength",
    ),
    (
        LINE,
        "Transfer-Encoding: chunked\r\n",
        1,
        "\r\n",
        "NoChunked",
    ),
    (
        LINE,
        "transfer-encoding:\r\nContent-Length: 1048577\r\n",
        1,
        "\r\n",
        "NoChunked",
    ),
    (
        LINE,
        "Content-Length: 1048577\r\n",
        1,
        "\r\n",
        "BodyTooLong",
    ),
    (LINE, "Content-Length: 1048576\r\n", 1, "\r\n", "Truncated"),
    ("GET / HTTP/2.0\r\n", "", 0, "\r\n", "BadHead"),
    ("GET / HTTP/2", "", 0, "", "BadHead"),
    ("GET  / HTTP/1.1\r\n", "", 0, "\r\n", "BadHead"),
    (LINE, "a b: c\r\n", 1, "\r\n", "BadHead"),
    ("\r\n", "", 0, "", "Truncated"),
    (LINE, "a:\n", 64, "\n", "GET / body \nEnd"),
    (LINE, "a:\n", 65, "\n", "BadHead"),
    (LINE, "a:\n", 5000, "\n", "BadHead"),
    (LINE, "a:\n", 65, "", "Truncated"),
    (LINE, "a:\n", 5456, "", "HeadTooLong"),
    ("GET /", "a", 16379, "", "HeadTooLong"),
    ("GET /", "a", 16378, "", "Truncated"),
    (
        "POST / HTTP/1.0\r\na: ",
        "a",
        16360,
        "\r\n\r\n",
        "POST / body \ncloses",
    ),
    (
        "POST / HTTP/1.0\r\na: ",
        "a",
        16361,
        "\r\n\r\n",
        "HeadTooLong",
    ),
    ("", "\n", 16384, "", "HeadTooLong"),
    (
        "",
        "\n",
        16367,
        "GET / HTTP/1.0\r\n\n",
        "GET / body \ncloses",
    ),
    ("", "\n", 16368, "GET / HTTP/1.0\r\n\n", "HeadTooLong"),
];

#[test]
fn heads_are_refused_for_their_own_reason(rt: HostRuntime) {
    let alloc = rt.alloc();
    for (front, piece, count, back, want) in &REFUSED {
        let bytes = repeated(&rt, alloc, front, piece, *count, back);
        for most in [1, 100, 4096] {
            let text = told(&rt, alloc, source(&rt, alloc, bytes.as_bytes(), most, most));
            assert_eq!(rt;
                text.as_str(),
                *want,
                "{count} times {piece:?} behind {front:?}, {most} a read"
            );
        }
    }
}

// A request is given as soon as its last byte came: the read behind it fails.
#[test]
fn a_request_is_given_without_a_further_read(rt: HostRuntime) {
    let alloc = rt.alloc();
    for (text, _) in &TEN {
        let inner = source(&rt, alloc, text.as_bytes(), 1, 1);
        let call = text.len() as u64;
        let calls = [call].to_vec(alloc).expect(&rt, "memory");
        let mut source = Failing::new(inner, calls);
        let mut reader = Reader::new(alloc).expect(&rt, "memory");
        assert_eq!(rt;
            reader.next(alloc, &mut source).into_result().is_ok(),
            true,
            "{text}"
        );
        for _ in 0..2 {
            let next = reader.next(alloc, &mut source).into_result();
            assert_eq!(rt; next.err(), Some(Stop::ReadFault), "{text}");
        }
    }
}
