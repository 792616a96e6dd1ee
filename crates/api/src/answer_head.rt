//! The head of an answer.
ghost use Rattle.std.specs.Prelude.{◌≡◌, ◌≤◌, ◌+◌, ◌++◌, [], length, option_map};
ghost use Rattle.arrayvec.specs.ArrayVec.{array_vec_len};
ghost use Rattle.ports.specs.Streams.{HasCause, Puts};
ghost use Rattle.api.specs.Statuses.{IsStatus};
ghost use Rattle.api.specs.HeadText.{phrase as phrase_of, media_type as media_type_of, status_line};
ghost use Rattle.api.specs.HeadText.{fields_before, head_text};

use arrayvec::ArrayVec;
use http::StatusCode;
use itoa::Buffer;
use ports::{Failed, Sink};

/// Lines of a head that go to a sink together.
type Lines = ArrayVec<u8, 256>;

const LAST_LINES: &str = "Connection: close\r\n\r\n";

/// Writes the head of an answer (RFC 9112, sections 4 and 5): the line of the status with its phrase;
/// `Content-Type: application/json` where the body is JSON, else `text/plain`; `Content-Length`, the
/// bytes of the body; `Allow`, where the methods of the path are told; `Connection: close`; and the
/// empty line. It takes no memory.
///
/// # Errors
///
/// `Failed` where the sink fails. Then a part of the head from its front may have been written.
pub fn write_head<W: Sink>(
    sink: &mut W,
    status: u16,
    json: bool,
    length: u128,
    allow: Option<&str>,
) -> Result<(), Failed>
    requires { IsStatus status }
    ensures bytes { Puts (W.held sink.old) (W.held sink.new)
        (head_text status json length (option_map (λ methods. methods.now) allow.entry)) result }
    ensures cause { HasCause (W.faults sink.old) (W.faults sink.new) result }
    ensures aside { W.aside sink.new ≡ W.aside sink.old }
{
    let mut lines = first_lines(status, json, length);
    match allow {
        None => {
            add(&mut lines, LAST_LINES);
            sink.put(lines.as_slice())
        }
        Some(methods) => {
            add(&mut lines, "Allow: ");
            sink.put(lines.as_slice())?;
            sink.put(methods.as_bytes())?;
            sink.put(b"\r\nConnection: close\r\n\r\n")
        }
    }
}

/// The line of the status, and the fields that speak of the body.
fn first_lines(status: u16, json: bool, length: u128) -> Lines
    requires { IsStatus status }
    ensures text { result.items ≡ status_line status ++ fields_before json length }
    ensures room { array_vec_len result ≤ 192 }
{
    let mut lines = Lines::new();
    add_status_line(&mut lines, status);
    add_fields(&mut lines, json, length);
    lines
}

fn add_status_line(lines: &mut Lines, status: u16)
    requires status { IsStatus status }
    requires empty { lines.old.items ≡ [] }
    ensures text { lines.new.items ≡ status_line status }
    ensures room { array_vec_len lines.new ≤ 96 }
{
    let mut buffer = Buffer::new();
    add(lines, "HTTP/1.1 ");
    add(lines, buffer.format(status));
    add(lines, " ");
    add(lines, phrase(status));
    add(lines, "\r\n");
}

fn add_fields(lines: &mut Lines, json: bool, length: u128)
    requires room { array_vec_len lines.old ≤ 96 }
    ensures text { lines.new.items ≡ lines.old.items ++ fields_before json length }
    ensures room { array_vec_len lines.new ≤ array_vec_len lines.old + 96 }
{
    let mut buffer = Buffer::new();
    add(lines, "Content-Type: ");
    add(lines, media_type(json));
    add(lines, "\r\nContent-Length: ");
    add(lines, buffer.format(length));
    add(lines, "\r\n");
}

/// Adds a text for which there is room.
fn add(lines: &mut Lines, text: &str)
    requires { array_vec_len lines.old + length text.now ≤ 256 }
    ensures text { lines.new.items ≡ lines.old.items ++ text.now }
    ensures room { array_vec_len lines.new ≡ array_vec_len lines.old + length text.now }
{
    let _ = lines.try_extend_from_slice(text.as_bytes());
}

/// The phrase of a status (RFC 9110, section 15).
fn phrase(status: u16) -> &'static str
    requires { IsStatus status }
    ensures text { result.now ≡ phrase_of status }
    ensures short { length result.now ≤ 31 }
{
    match StatusCode::from_u16(status) {
        Ok(code) => code.canonical_reason().unwrap_or(""),
        Err(_) => "",
    }
}

fn media_type(json: bool) -> &'static str
    ensures text { result.now ≡ media_type_of json }
    ensures short { length result.now ≤ 16 }
{
    if json {
        "application/json"
    } else {
        "text/plain"
    }
}
