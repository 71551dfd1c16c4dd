// What the fields of a head say.
ghost use Rattle.std.specs.Prelude.{◌≡◌, ◌≤◌, ◌<◌, ◌^◌, All, IfErr, IfOk, IfSome, length, map, option_map};
ghost use Rattle.httparse.specs.Spans.{IsHeaderWithin, header_bytes, span_bytes};
ghost use Rattle.plan_terms.specs.Digits.{number_of};
ghost use Rattle.rest_stream.specs.Fields.{IsRefusal, all_agree, asks_to_close, body_length, framed_by, framing, same_name, value_in};

use crate::raw::Stop;
use httparse::spans::HeaderSpan;
use plan_terms::read_digits;
use std::str;

const MAX_FIELDS: usize = 64;

const MAX_BODY: u64 = 1_048_576;

// Whether two texts are the same, without regard to ASCII case.
fn is_same(one: &[u8], other: &[u8]) -> bool
    ensures { result ≡ same_name one.now other.now }
{
    one.eq_ignore_ascii_case(other)
}

// Whether the field has that name.
fn is_named(buf: &[u8], header: &HeaderSpan, name: &str) -> bool
    requires { IsHeaderWithin (length buf.now) header.now }
    ensures { result ≡ same_name (span_bytes buf.now header.now.name) name.now }
{
    is_same(header.name.of(buf), name.as_bytes())
}

/// The value of the first field of a name.
pub fn value_of<'b>(buf: &'b [u8], headers: &[HeaderSpan], name: &str) -> Option<&'b [u8]>
    requires { All (IsHeaderWithin (length buf.now)) headers.now }
    ensures { option_map (λ v. v.now) result
        ≡ value_in name.now (map (header_bytes buf.entry.now) headers.now) }
{
    for header in headers {
        if is_named(buf, header, name) {
            return Some(header.value.of(buf));
        }
    }
    None
}

// Whether each field of the name has the value.
fn all_agree(buf: &[u8], headers: &[HeaderSpan], name: &str, value: &[u8]) -> bool
    requires { All (IsHeaderWithin (length buf.now)) headers.now }
    ensures { result ≡ all_agree name.now value.now (map (header_bytes buf.now) headers.now) }
{
    for header in headers {
        if is_named(buf, header, name) && header.value.of(buf) != value {
            return false;
        }
    }
    true
}

/// Whether a field asks to end the link.
pub fn asks_to_close(buf: &[u8], headers: &[HeaderSpan]) -> bool
    requires { All (IsHeaderWithin (length buf.now)) headers.now }
    ensures { result ≡ asks_to_close (map (header_bytes buf.now) headers.now) }
{
    for header in headers {
        if is_named(buf, header, "connection") && is_same(header.value.of(buf), b"close") {
            return true;
        }
    }
    false
}

// The number that 1 to 19 digits spell.
fn digits(value: &[u8]) -> Option<u64>
    ensures { result ≡ number_of 19 value.now }
{
    match str::from_utf8(value) {
        Ok(text) => read_digits(text, 19),
        Err(_) => None,
    }
}

// The length that the fields state.
fn body_length(buf: &[u8], headers: &[HeaderSpan]) -> Option<u64>
    requires { All (IsHeaderWithin (length buf.now)) headers.now }
    ensures { result ≡ body_length (map (header_bytes buf.now) headers.now) }
{
    match value_of(buf, headers, "content-length") {
        None => Some(0),
        Some(value) if all_agree(buf, headers, "content-length", value) => digits(value),
        Some(_) => None,
    }
}

fn framed_by(length: u64, is_encoded: bool) -> Result<usize, Stop>
    ensures is { result ≡ framed_by length is_encoded }
    ensures few { IfOk result (λ n. n ≤ 1048576) }
    ensures why { IfErr result IsRefusal }
{
    if is_encoded {
        Err(Stop::NoChunked)
    } else if length > MAX_BODY {
        Err(Stop::BodyTooLong)
    } else {
        Ok(length as usize)
    }
}

/// The length of the body behind a head with these fields, or why the head is refused.
pub fn framing(buf: &[u8], headers: &[HeaderSpan]) -> Result<usize, Stop>
    requires { All (IsHeaderWithin (length buf.now)) headers.now }
    ensures is { result ≡ framing (map (header_bytes buf.now) headers.now) }
    ensures few { IfOk result (λ n. n ≤ 1048576) }
    ensures why { IfErr result IsRefusal }
{
    if headers.len() > MAX_FIELDS {
        return Err(Stop::BadHead);
    }
    match body_length(buf, headers) {
        None => Err(Stop::BadLength),
        Some(length) => framed_by(
            length,
            value_of(buf, headers, "transfer-encoding").is_some(),
        ),
    }
}
