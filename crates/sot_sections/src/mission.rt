//! The sections of a mission.
ghost use Rattle.std.specs.Prelude.{◌≡◌, ℕ, ◌+◌, ◌<◌, ◌≤◌, ◌^◌, true, length};
ghost use Rattle.std.specs.Option.{option_map};
ghost use Rattle.sot_text.specs.LineEnds.{lines, without_last};
ghost use Rattle.sot_sections.specs.Sections.{title, place, fault_behind, needed, or_missing};
ghost use Rattle.sot_sections.specs.Sections.{unless, split_of, parts_of, answer_seen};
ghost use Rattle.sot_text.specs.LineEnds.{line_len};
ghost use Rattle.sot_sections.specs.Dividing.{divided, begins_section, end_line, NoneBegins, IsCut};
ghost use Rattle.sot_sections.specs.Dividing.{section_lines, first_body, behind_first, IsRest};

use memchr::memchr;
use sot_text::line_len;

/// What a command needs of a mission beside its program: to check needs the certificate, to fly the
/// flight too, and to replay the trace as well.
#[derive(Clone, Copy, Debug, PartialEq, Eq)]
pub enum Need {
    Check,
    Fly,
    Replay,
}

/// The sections of a mission that a command needs.
#[derive(Clone, Copy, Debug)]
pub struct Sections<'a> {
    pub program: &'a [u8],
    pub cert: &'a [u8],
    pub flight: Option<&'a [u8]>,
    pub trace: Option<&'a [u8]>,
}

/// Why a text has no such sections, and at which line.
#[derive(Clone, Copy, Debug, PartialEq, Eq)]
pub struct SectionFault {
    pub line: u32,
    pub kind: SectionKind,
}

#[derive(Clone, Copy, Debug, PartialEq, Eq)]
pub enum SectionKind {
    /// A section line that is none of `%certificate`, `%flight` and `%trace`.
    Unknown,
    /// A known section line that does not come after all earlier ones.
    Order,
    /// A section that is needed does not come.
    Missing,
}

// Some lines of a text, and what stands behind them.
#[derive(Clone, Copy)]
struct Cut<'a> {
    body: &'a [u8],
    rest: &'a [u8],
}

// A section's bytes, if it came, and what stands behind it.
#[derive(Clone, Copy)]
struct Taken<'a> {
    body: Option<&'a [u8]>,
    rest: &'a [u8],
}

fn without_last<'a>(text: &'a [u8], end: u8) -> &'a [u8]
    ensures { result.now ≡ without_last end text.now }
{
    match text {
        [front @ .., last] if *last == end => front,
        _ => text,
    }
}

/// What a section line says: the line without its line end.
pub fn title(line: &[u8]) -> &[u8]
    ensures { result.now ≡ title line.now }
{
    without_last(without_last(line, b'\n'), b'\r')
}

// The place of a title in the order of the sections, or 0.
#[tactic(auto, unfolding(crate::specs::Sections::place))]
fn place(title: &[u8]) -> u8
    ensures { result ≡ place title.now }
{
    if title == b"%certificate".as_slice() {
        1
    } else if title == b"%flight".as_slice() {
        2
    } else if title == b"%trace".as_slice() {
        3
    } else {
        0
    }
}

// Where the next section line begins, or the end. The lines on the way are not gone over one by
// one, since few of them have a `%`.
fn section_start(bytes: &[u8]) -> usize
    ensures within { result ≤ length bytes.now }
    ensures none { NoneBegins bytes.now result }
    ensures cut { IsCut bytes.now result }
{
    let mut at = 0;
    'marks: while let Some(before) = memchr(b'%', &bytes[at..]) {
        let mark = at + before;
        if mark == 0 || bytes[mark - 1] == b'\n' {
            return mark;
        }
        at = mark + line_len(&bytes[mark..]);
    }
    bytes.len()
}

// The bytes before the next section line.
fn front<'a>(bytes: &'a [u8]) -> Cut<'a>
    ensures body { (line : ℕ) → result.body.now ≡ (divided line bytes.now).front }
    ensures rest { (line : ℕ) → IsRest (divided line bytes.now).sections (end_line line bytes.now)
        (line + length bytes.now) (end_line line result.body.now) result.rest.now }
{
    let at = section_start(bytes);
    Cut {
        body: &bytes[..at],
        rest: &bytes[at..],
    }
}

// The first section's bytes, if it has this place.
fn take_section<'a>(bytes: &'a [u8], wanted: u8) -> Taken<'a>
    requires begins { begins_section bytes.now ≡ true }
    requires wanted { 0 < wanted }
    ensures body { (line : ℕ) → option_map (λ b. b.now) result.body
        ≡ first_body wanted (divided line bytes.now).sections }
    ensures rest { (line : ℕ) → IsRest (behind_first wanted (divided line bytes.now).sections)
        (end_line line bytes.now) (line + length bytes.now)
        (line + section_lines (option_map (λ b. b.now) result.body)) result.rest.now }
{
    let len = line_len(bytes);
    if place(title(&bytes[..len])) == wanted {
        let cut = front(&bytes[len..]);
        Taken {
            body: Some(cut.body),
            rest: cut.rest,
        }
    } else {
        Taken {
            body: None,
            rest: bytes,
        }
    }
}

// The fault of a section line that stands behind the last section.
fn fault_behind(bytes: &[u8], line: u32) -> Option<SectionFault>
    requires { begins_section bytes.now ≡ true }
    ensures { result ≡ fault_behind 3 (divided line bytes.now).sections }
{
    if bytes.is_empty() {
        return None;
    }
    let kind = if place(title(&bytes[..line_len(bytes)])) == 0 {
        SectionKind::Unknown
    } else {
        SectionKind::Order
    };
    Some(SectionFault { line, kind })
}

// The parts that are needed, where they all came.
fn needed<'a>(
    need: Need,
    program: &'a [u8],
    cert: Option<&'a [u8]>,
    flight: Option<&'a [u8]>,
    trace: Option<&'a [u8]>,
) -> Option<Sections<'a>>
    ensures { option_map parts_of result
        ≡ needed need program.now (option_map (λ b. b.now) cert.entry)
        (option_map (λ b. b.now) flight.entry) (option_map (λ b. b.now) trace.entry) }
{
    match (need, cert, flight, trace) {
        (Need::Check, Some(cert), _, _) => Some(Sections {
            program,
            cert,
            flight: None,
            trace: None,
        }),
        (Need::Fly, Some(cert), Some(flight), _) => Some(Sections {
            program,
            cert,
            flight: Some(flight),
            trace: None,
        }),
        (Need::Replay, Some(cert), Some(flight), Some(trace)) => Some(Sections {
            program,
            cert,
            flight: Some(flight),
            trace: Some(trace),
        }),
        _ => None,
    }
}

// A fault of a section line goes before a part that is missing.
fn answer<'a>(
    fault: Option<SectionFault>,
    end: u32,
    parts: Option<Sections<'a>>,
) -> Result<Sections<'a>, SectionFault>
    ensures { answer_seen result ≡ unless fault (or_missing end (option_map parts_of parts.entry)) }
{
    if let Some(fault) = fault {
        return Err(fault);
    }
    parts.ok_or(SectionFault {
        line: end,
        kind: SectionKind::Missing,
    })
}

fn count_lines(bytes: &[u8]) -> usize
    ensures lines { result ≡ length (lines bytes.now) }
    ensures few { result ≤ length bytes.now }
{
    let (_, mut rest) = bytes.split_at(0);
    let mut count = 0;
    while !rest.is_empty() {
        let (_, more) = rest.split_at(line_len(rest));
        rest = more;
        count += 1;
    }
    count
}

// How many lines a section takes with its section line, if it came.
fn count_section(body: Option<&[u8]>) -> usize
    requires { section_lines (option_map (λ b. b.now) body) < 2 ^ 32 }
    ensures { result ≡ section_lines (option_map (λ b. b.now) body.entry) }
{
    match body {
        Some(body) => count_lines(body) + 1,
        None => 0,
    }
}

// The number of the line behind the program and these sections. It is counted only where it is
// told.
fn line_behind(
    program: &[u8],
    cert: Option<&[u8]>,
    flight: Option<&[u8]>,
    trace: Option<&[u8]>,
) -> u32
    requires { end_line 1 program.now + section_lines (option_map (λ b. b.now) cert)
        + section_lines (option_map (λ b. b.now) flight)
        + section_lines (option_map (λ b. b.now) trace) < 2 ^ 32 }
    ensures { result ≡ end_line 1 program.now + section_lines (option_map (λ b. b.now) cert.entry)
        + section_lines (option_map (λ b. b.now) flight.entry)
        + section_lines (option_map (λ b. b.now) trace.entry) }
{
    let front = 1 + count_lines(program);
    let sections = count_section(cert) + count_section(flight) + count_section(trace);
    (front + sections) as u32
}

/// The sections of a mission, as far as they are needed. A line that begins with `%` is a section
/// line; the program stands before the first, and each section from behind its line to the next.
/// The whole text is looked through for a section line with a fault, also behind what is needed,
/// and the first such line is told. Only where there is none can a section be missing.
pub fn split<'a>(bytes: &'a [u8], need: Need) -> Result<Sections<'a>, SectionFault>
    requires { length bytes.now + 1 < 2 ^ 32 }
    ensures { answer_seen result ≡ split_of bytes.now need }
{
    let program = front(bytes);
    let cert = take_section(program.rest, 1);
    let flight = take_section(cert.rest, 2);
    let trace = take_section(flight.rest, 3);
    let parts = needed(need, program.body, cert.body, flight.body, trace.body);
    if trace.rest.is_empty() {
        if let Some(sections) = parts {
            return Ok(sections);
        }
    }
    let line = line_behind(program.body, cert.body, flight.body, trace.body);
    answer(fault_behind(trace.rest, line), line, parts)
}
