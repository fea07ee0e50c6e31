//! How a name is written.

ghost use Rattle.std.specs.Prelude.{◌≡◌, ◌++◌, OnOk, flat_map};
ghost use Rattle.std.specs.List.{list_all};
ghost use Rattle.ap_writer.specs.Quoted.{is_word, is_symbol, is_name, begins_comment, is_symbols, is_bare, escaped, name_text};

use ap_term::NoMemory;

fn is_word(b: u8) -> bool
    ensures { result ≡ is_word b }
{
    b.is_ascii_alphanumeric() || b == b'_'
}

fn is_symbol(b: u8) -> bool
    ensures { result ≡ is_symbol b }
{
    b == b'+'
        || b == b'-'
        || b == b'*'
        || b == b'/'
        || b == b'\\'
        || b == b'^'
        || b == b'<'
        || b == b'>'
        || b == b'='
        || b == b'~'
        || b == b':'
        || b == b'.'
        || b == b'?'
        || b == b'@'
        || b == b'#'
        || b == b'&'
        || b == b'$'
}

fn are_words(bytes: &[u8]) -> bool
    ensures { result ≡ list_all is_word bytes.now }
{
    for b in bytes {
        if !is_word(*b) {
            return false;
        }
    }
    true
}

fn are_symbols(bytes: &[u8]) -> bool
    ensures { result ≡ list_all is_symbol bytes.now }
{
    for b in bytes {
        if !is_symbol(*b) {
            return false;
        }
    }
    true
}

fn is_name(name: &[u8]) -> bool
    ensures { result ≡ is_name name.now }
{
    match name {
        [] => false,
        [b, rest @ ..] => b.is_ascii_lowercase() && are_words(rest),
    }
}

fn begins_comment(name: &[u8]) -> bool
    ensures { result ≡ begins_comment name.now }
{
    match name {
        [a, b, ..] => *a == b'/' && *b == b'*',
        _ => false,
    }
}

/// Whether a name is a run of symbol characters that needs no quotes.
pub fn is_symbols(name: &[u8]) -> bool
    ensures { result ≡ is_symbols name.now }
{
    match name {
        [] => false,
        _ => are_symbols(name) && !(name == b".".as_slice()) && !begins_comment(name),
    }
}

/// Whether a name is written without quotes.
fn is_bare(name: &[u8]) -> bool
    ensures { result ≡ is_bare name.now }
{
    is_name(name)
        || is_symbols(name)
        || name == b"[]".as_slice()
        || name == b";".as_slice()
        || name == b"!".as_slice()
}

fn push_escaped(out: &mut Vec<u8>, b: u8) -> Result<(), NoMemory>
    ensures { OnOk result (out.new.items ≡ out.old.items ++ escaped b) }
{
    match b {
        b'\'' => out.extend_from_slice(b"\\'")?,
        b'\\' => out.extend_from_slice(b"\\\\")?,
        b'\n' => out.extend_from_slice(b"\\n")?,
        b'\t' => out.extend_from_slice(b"\\t")?,
        _ => out.push(b)?,
    }
    Ok(())
}

fn push_quoted(out: &mut Vec<u8>, name: &[u8]) -> Result<(), NoMemory>
    ensures { OnOk result (out.new.items ≡ out.old.items ++ flat_map escaped name.now) }
{
    for b in name {
        push_escaped(out, *b)?;
    }
    Ok(())
}

/// Writes a name, between quotes where it needs them.
pub fn push_name(out: &mut Vec<u8>, name: &[u8]) -> Result<(), NoMemory>
    ensures { OnOk result (out.new.items ≡ out.old.items ++ name_text name.now) }
{
    if is_bare(name) {
        out.extend_from_slice(name)?;
        return Ok(());
    }
    out.push(b'\'')?;
    push_quoted(out, name)?;
    out.push(b'\'')?;
    Ok(())
}
