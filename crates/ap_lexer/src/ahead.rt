ghost use Rattle.std.specs.Prelude.{◌≡◌, ◌+◌, ◌-◌, ◌<◌, ◌≤◌, ◌↔◌, ◌^◌, ⊤, drop, take, length, min, slice_index, option_map, IfSome, MatchOption, MatchResult, IsTrue, false};
ghost use Rattle.std.specs.Str.{is_utf8};
ghost use Rattle.std.specs.Str.Lossy.{utf8_valid_len};
ghost use Rattle.ap_lexer.specs.Lexeme as spec;
ghost use Rattle.ap_lexer.specs.Ahead.{KnowsCharacters, KnowsLine, KnowsComment, KnowsQuoted};

use crate::bytes::{Class, past};

/// Where a quoted token stands between two bytes: behind a character, a quote that may close it,
/// or a backslash.
#[derive(Clone, Copy)]
pub(crate) enum Quote {
    Plain,
    Quote,
    Escape,
}

/// Where characters end that begin at a place: at the end of the text or a byte that isn't UTF-8.
#[derive(Clone, Copy)]
pub(crate) struct Characters {
    from: usize,
    to: usize,
}

/// Where a line ends that goes on at a place.
#[derive(Clone, Copy)]
pub(crate) struct Line {
    from: usize,
    to: usize,
}

/// Where a comment ends that goes on at a place.
#[derive(Clone, Copy)]
pub(crate) struct Comment {
    from: usize,
    end: Option<usize>,
}

/// Where a quoted token ends that goes on at a place.
#[derive(Clone, Copy)]
pub(crate) struct Quoted {
    state: Quote,
    from: usize,
    end: Option<usize>,
}

/// What scans ahead have found in a text. Behind a bad token the text is taken up again at a place
/// that a scan may have passed already. What that scan found is kept, so that no byte is scanned
/// again and again, and a text of comments or quotes that aren't closed is read in linear time.
#[derive(Clone, Copy)]
pub(crate) struct Ahead {
    pub(crate) characters: Option<Characters>,
    pub(crate) line: Option<Line>,
    pub(crate) comment: Option<Comment>,
    pub(crate) quoted: Option<Quoted>,
}

impl Ahead {
    ghost use Rattle.ap_lexer.specs.Ahead.{IsSound};
    ghost use Rattle.ap_lexer.specs.Lexeme.{Text};

    pub(crate) fn new() -> Ahead
        ensures { (text : Text) → IsSound text result }
    {
        Ahead {
            characters: None,
            line: None,
            comment: None,
            quoted: None,
        }
    }
}

fn is_utf8(text: &[u8]) -> bool
    ensures { result ≡ is_utf8 text.now }
{
    match std::str::from_utf8(text) {
        Ok(_) => true,
        Err(_) => false,
    }
}

/// The length of the longest front that is UTF-8.
fn valid_len(text: &[u8]) -> usize
    ensures value { result ≡ utf8_valid_len text.now }
    ensures within { result ≤ length text.now }
{
    match std::str::from_utf8(text) {
        Ok(_) => text.len(),
        Err(e) => e.valid_up_to(),
    }
}

/// How many of the `len` bytes at a place are characters, up to the first that isn't UTF-8.
pub(crate) fn characters_len(
    known: &mut Option<Characters>,
    text: &[u8],
    at: usize,
    len: usize,
) -> usize
    requires here { at < length text.now }
    requires ascii { slice_index text.now at < 128 }
    requires within { at + len ≤ length text.now }
    requires knows { KnowsCharacters text.now known.old }
    ensures value { result ≡ min len (utf8_valid_len (drop at text.now)) }
    ensures some { 0 < len → 0 < result }
    ensures knows { KnowsCharacters text.now known.new }
{
    match *known {
        Some(seen) if seen.from <= at && at <= seen.to => len.min(seen.to - at),
        _ => {
            let (_, rest) = text.split_at(at);
            let (front, _) = rest.split_at(len);
            if is_utf8(front) {
                return len;
            }
            let valid = valid_len(rest);
            *known = Some(Characters {
                from: at,
                to: at + valid,
            });
            len.min(valid)
        }
    }
}

/// How many bytes the line goes on.
#[inline(never)]
pub(crate) fn line_len(known: &mut Option<Line>, text: &[u8], at: usize) -> usize
    requires here { at ≤ length text.now }
    requires knows { KnowsLine text.now known.old }
    ensures value { result ≡ spec.line_len (drop at text.now) }
    ensures within { at + result ≤ length text.now }
    ensures knows { KnowsLine text.now known.new }
{
    match *known {
        Some(seen) if seen.from <= at && at <= seen.to => seen.to - at,
        _ => {
            let to = past(Class::Line, text, at);
            *known = Some(Line { from: at, to });
            to - at
        }
    }
}

/// A place as its distance from an earlier one.
fn distance(end: Option<usize>, at: usize) -> Option<usize>
    requires { IfSome end (λ e. at ≤ e) }
    ensures { result ≡ option_map (λ e. e - at) end }
{
    match end {
        Some(end) => Some(end - at),
        None => None,
    }
}

/// The place behind the next `*/` from a place on.
fn scan_comment(text: &[u8], from: usize) -> Option<usize>
    requires { from ≤ length text.now }
    ensures { result ≡ spec.comment_end false from (drop from text.now) }
{
    let mut star = false;
    let mut at = from;
    let (_, mut rest) = text.split_at(from);
    while let [b, after @ ..] = rest {
        if star && *b == b'/' {
            return Some(at + 1);
        }
        star = *b == b'*';
        at += 1;
        rest = after;
    }
    None
}

/// Whether a comment that goes on at a place may end there.
fn is_behind(end: Option<usize>, from: usize) -> bool
    requires { from + 2 < 2 ^ 64 }
    ensures { IsTrue result ↔ MatchOption end ⊤ (λ e. from + 2 ≤ e) }
{
    match end {
        Some(end) => from + 2 <= end,
        None => true,
    }
}

/// The place behind the next `*/` from a place on, by what is known or by a scan.
fn comment_end(known: &mut Option<Comment>, text: &[u8], from: usize) -> Option<usize>
    requires here { from ≤ length text.now }
    requires fits { from + 2 < 2 ^ 64 }
    requires knows { KnowsComment text.now known.old }
    ensures value { result ≡ spec.comment_end false from (drop from text.now) }
    ensures knows { KnowsComment text.now known.new }
{
    match *known {
        Some(seen) if seen.from <= from && is_behind(seen.end, from) => seen.end,
        _ => {
            let end = scan_comment(text, from);
            *known = Some(Comment { from, end });
            end
        }
    }
}

/// The length of a comment that begins with `/*`, if it ends.
#[inline(never)]
pub(crate) fn comment_len(known: &mut Option<Comment>, text: &[u8], at: usize) -> Option<usize>
    requires here { at + 2 ≤ length text.now }
    requires knows { KnowsComment text.now known.old }
    ensures value { result ≡ spec.comment_end false 2 (drop 2 (drop at text.now)) }
    ensures within { IfSome result (λ len. (2 ≤ len) × (at + len ≤ length text.now)) }
    ensures knows { KnowsComment text.now known.new }
{
    distance(comment_end(known, text, at + 2), at)
}

/// Reads a quoted token's bytes from a place to another: how it stands there, or where it ended.
fn run(text: &[u8], state: Quote, from: usize, to: usize) -> Result<Quote, Option<usize>>
    requires { (from ≤ to) × (to ≤ length text.now) }
    ensures { MatchResult result
        (λ there. spec.closing state from (drop from text.now) ≡ spec.closing there to (drop to text.now))
        (λ end. spec.closing state from (drop from text.now) ≡ end) }
{
    let mut here = state;
    let mut at = from;
    while at < to {
        here = match (here, text[at]) {
            (Quote::Plain, b'\'') => Quote::Quote,
            (Quote::Plain, b'\\') => Quote::Escape,
            (Quote::Plain, b'\n') => return Err(None),
            (Quote::Plain, _) => Quote::Plain,
            (Quote::Quote, b'\'') => Quote::Plain,
            (Quote::Quote, _) => return Err(Some(at)),
            (Quote::Escape, b'\'' | b'\\' | b'n' | b't') => Quote::Plain,
            (Quote::Escape, _) => return Err(None),
        };
        at += 1;
    }
    Ok(here)
}

/// The place behind the closing quote of a quoted token that goes on at a place.
fn scan_quoted(text: &[u8], from: usize) -> Option<usize>
    requires { from ≤ length text.now }
    ensures { result ≡ spec.closing Quote.Plain from (drop from text.now) }
{
    match run(text, Quote::Plain, from, text.len()) {
        Ok(Quote::Quote) => Some(text.len()),
        Ok(Quote::Plain | Quote::Escape) => None,
        Err(end) => end,
    }
}

/// What is known of a quoted token, at a later place, unless it has ended there.
fn follow(known: Option<Quoted>, text: &[u8], from: usize) -> Option<Quoted>
    requires here { from ≤ length text.now }
    requires knows { KnowsQuoted text.now known }
    ensures there { IfSome result (λ seen. seen.from ≡ from) }
    ensures knows { KnowsQuoted text.now result }
{
    match known {
        Some(seen) if seen.from <= from => match run(text, seen.state, seen.from, from) {
            Ok(state) => Some(Quoted {
                state,
                from,
                end: seen.end,
            }),
            Err(_) => None,
        },
        _ => None,
    }
}

/// The place behind the closing quote of a quoted token that goes on at a place, by what is known or
/// by a scan.
fn quoted_end(known: &mut Option<Quoted>, text: &[u8], from: usize) -> Option<usize>
    requires here { from ≤ length text.now }
    requires knows { KnowsQuoted text.now known.old }
    ensures value { result ≡ spec.closing Quote.Plain from (drop from text.now) }
    ensures knows { KnowsQuoted text.now known.new }
{
    *known = follow(*known, text, from);
    match *known {
        Some(
            Quoted {
                state: Quote::Plain,
                end,
                ..
            },
        ) => end,
        // A quote beside others: the last of them closes it, and what is known stays of use.
        Some(_) => scan_quoted(text, from),
        None => {
            let end = scan_quoted(text, from);
            *known = Some(Quoted {
                state: Quote::Plain,
                from,
                end,
            });
            end
        }
    }
}

/// The length of a quoted token, if it is closed.
#[inline(never)]
pub(crate) fn quoted_len(known: &mut Option<Quoted>, text: &[u8], at: usize) -> Option<usize>
    requires here { at < length text.now }
    requires knows { KnowsQuoted text.now known.old }
    ensures value { result ≡ spec.closing Quote.Plain 1 (drop 1 (drop at text.now)) }
    ensures within { IfSome result (λ len. (1 ≤ len) × (at + len ≤ length text.now)) }
    ensures knows { KnowsQuoted text.now known.new }
{
    distance(quoted_end(known, text, at + 1), at)
}
