//! What each token is as an operand or a functor: a variable's number or a name.

ghost use Rattle.std.specs.Prelude.{◌≡◌, ℕ, ◌+◌, ◌<◌, ◌^◌, List, [], IfOk, IfSome, OnOk, Some, MatchOption, map, drop, length, bytes_eq};
ghost use Rattle.std.specs.Borrow.{Bor};
ghost use Rattle.std.specs.Str.{IsUtf8};
ghost use Rattle.ap_lexer.specs.Lexeme.{Text};
ghost use Rattle.ap_lexer.specs.Token.{Placed, view};
ghost use Rattle.ap_reader.specs.Written as spec;
ghost use Rattle.ap_reader.specs.Leaves.{AreOnce, Numbers, NameFor, LeafFor, LeavesFor, both_items, texts};

use crate::room::Room;
use ap_lexer::{Token, TokenKind, push};
use ap_term::NoMemory;
use std::alloc::{AllocError, Global};
use std::collections::HashMap;

/// What a token is as an operand or a functor.
#[derive(Debug, Drop)]
pub enum Leaf<'a> {
    /// A variable, by its number.
    Variable(u64),
    /// A name as it stands in the text.
    Name(&'a str),
    /// A name that stood in quotes.
    Unquoted(String),
    /// An integer, or what is neither.
    Mark,
}

/// Where a quoted name stands between two bytes: behind a character, a quote that may close it, or a
/// backslash.
#[derive(Clone, Copy)]
pub(crate) enum Quote {
    Plain,
    Quote,
    Escape,
}

fn unescaped(b: u8) -> u8
    ensures { result ≡ spec.unescaped b }
{
    match b {
        b'n' => b'\n',
        b't' => b'\t',
        _ => b,
    }
}

/// The characters of a quoted token, from behind its first quote.
fn unquoted(alloc: Global, text: &[u8]) -> Result<Vec<u8>, AllocError>
    ensures { IfOk result (λ v. v.items ≡ spec.unquoted Quote.Plain text.now) }
{
    let mut out = Vec::new(alloc);
    let mut state = Quote::Plain;
    let mut left = text;
    while let [b, rest @ ..] = left {
        state = match (state, *b) {
            (Quote::Plain, b'\'') => Quote::Quote,
            (Quote::Plain, b'\\') => Quote::Escape,
            (Quote::Quote, b'\'') | (Quote::Plain, _) => {
                out.push(*b)?;
                Quote::Plain
            }
            (Quote::Quote, _) => return Ok(out),
            (Quote::Escape, _) => {
                out.push(unescaped(*b))?;
                Quote::Plain
            }
        };
        left = rest;
    }
    Ok(out)
}

/// Why a token has no leaf.
#[derive(Clone, Copy, Debug)]
pub(crate) enum LeafErr {
    /// A name or a variable isn't UTF-8.
    NotText,
    NoMemory,
}

/// The name that bytes are; most of all names are commas.
fn plain_name(text: &[u8]) -> Option<&str>
    ensures { MatchOption result (IsUtf8 text.now → ⊥) (λ name. (name.now ≡ text.now) × IsUtf8 text.now) }
{
    if let [b','] = text {
        return Some(",");
    }
    match std::str::from_utf8(text) {
        Ok(name) => Some(name),
        Err(_) => None,
    }
}

/// How many variables are looked for one after another, which takes less than a map where they are few.
pub(crate) const NEAR: usize = 16;

/// The variables so far: their names by number, and the numbers of those behind the first `NEAR`, of all but `_`.
#[derive(Drop)]
pub(crate) struct Variables<'a> {
    numbers: HashMap<&'a str, u64>,
    pub(crate) names: Vec<&'a str>,
    /// By first bytes the place of the name that was looked for last, or of another; each is a guess.
    lately: [u8; SLOTS],
}

const SLOTS: usize = 32;

/// The slot of a name's first byte.
fn slot_of(first: u8) -> usize
    ensures { result < 32 }
{
    usize::from(first) % SLOTS
}

/// Whether two names are the same. Most variables have one letter.
#[inline(always)]
fn is_same(left: &str, right: &str) -> bool
    ensures { result ≡ bytes_eq left.now right.now }
{
    are_same(left.as_bytes(), right.as_bytes())
}

/// The place of a name, from 1.
fn place_in(names: &[&str], name: &str) -> Option<u64>
    requires { length names.now < 2 ^ 63 }
    ensures { result ≡ spec.place_in 1 (texts names.now) name.now }
{
    let mut at = 1;
    let mut left = names;
    while let [first, rest @ ..] = left {
        if is_same(first, name) {
            return Some(at);
        }
        at += 1;
        left = rest;
    }
    None
}

/// Whether bytes are the same. Most names have one.
#[inline(always)]
fn are_same(left: &[u8], right: &[u8]) -> bool
    ensures { result ≡ bytes_eq left.now right.now }
{
    match (left, right) {
        ([a], [b]) => a == b,
        _ => left == right,
    }
}

impl<'a> Variables<'a> {
    /// None so far, with a list for their names.
    pub(crate) fn new(alloc: Global, names: Vec<&'a str>) -> Variables<'a>
        requires { names.items ≡ [] }
        ensures names { result.names ≡ names.entry }
        ensures numbers { Numbers result.numbers (texts result.names.items) }
        ensures once { AreOnce result.names.items }
    {
        Variables {
            numbers: HashMap::new(alloc),
            names,
            lately: [0; SLOTS],
        }
    }

    /// The number of a variable that stood before, if its name is the last one with this first byte.
    #[inline(always)]
    fn guessed(&self, name: &[u8]) -> Option<u64>
        requires { AreOnce self.now.names.items }
        ensures { IfSome result (λ n. (spec.known (texts self.now.names.items) name.now ≡ Some n) × IsUtf8 name.now) }
    {
        let [first, ..] = name else {
            return None;
        };
        let at = self.lately[slot_of(*first)];
        let Some(held) = self.names.get(usize::from(at)) else {
            return None;
        };
        if are_same(held.as_bytes(), name) && !are_same(name, b"_") {
            return Some(u64::from(at) + 1);
        }
        None
    }

    /// Keeps the place of a name as the guess for its first byte.
    fn keep(&mut self, name: &str, number: u64)
        ensures names { self.new.names ≡ self.old.names }
        ensures numbers { self.new.numbers ≡ self.old.numbers }
    {
        if let [first, ..] = name.as_bytes() {
            self.lately[slot_of(*first)] = number.saturating_sub(1).min(255) as u8;
        }
    }

    /// The number of a variable that stood before; `_` never did.
    fn known(&self, name: &str) -> Option<u64>
        requires { Numbers self.now.numbers (texts self.now.names.items) }
        ensures { result ≡ spec.known (texts self.now.names.items) name.now }
    {
        if is_same(name, "_") {
            return None;
        }
        let near = NEAR.min(self.names.len());
        match place_in(&self.names[..near], name) {
            Some(number) => Some(number),
            None => self.numbers.get(name).copied(),
        }
    }

    /// The number of the next variable.
    fn number(&mut self, name: &'a str) -> Result<u64, NoMemory>
        requires numbers { Numbers self.old.numbers (texts self.old.names.items) }
        requires once { AreOnce self.old.names.items }
        ensures number { IfOk result (λ n. n ≡ spec.number_after (texts self.old.names.items) (spec.known (texts self.old.names.items) name.now)) }
        ensures seen { OnOk result (texts self.new.names.items ≡ spec.seen_after (texts self.old.names.items) name.now (spec.known (texts self.old.names.items) name.now)) }
        ensures numbers { OnOk result (Numbers self.new.numbers (texts self.new.names.items)) }
        ensures once { OnOk result (AreOnce self.new.names.items) }
    {
        if let Some(number) = self.known(name) {
            return Ok(number);
        }
        let before = self.names.len();
        let number = before as u64 + 1;
        self.names.push(name)?;
        if before < NEAR {
            return Ok(number);
        }
        if name != "_" {
            self.numbers.insert(name, number)?;
        }
        Ok(number)
    }

    /// What the next token is.
    #[inline(always)]
    pub(crate) fn leaf(&mut self, alloc: Global, token: &Token<'a>) -> Result<Leaf<'a>, LeafErr>
        requires numbers { Numbers self.old.numbers (texts self.old.names.items) }
        requires once { AreOnce self.old.names.items }
        ensures leaf { LeafFor (view token.now) (texts self.old.names.items) (texts self.new.names.items) result }
        ensures numbers { OnOk result (Numbers self.new.numbers (texts self.new.names.items)) }
        ensures once { OnOk result (AreOnce self.new.names.items) }
    {
        match token.kind {
            TokenKind::Variable => {
                if let Some(number) = self.guessed(token.text) {
                    return Ok(Leaf::Variable(number));
                }
                let Ok(name) = std::str::from_utf8(token.text) else {
                    return Err(LeafErr::NotText);
                };
                match self.number(name) {
                    Ok(number) => {
                        self.keep(name, number);
                        Ok(Leaf::Variable(number))
                    }
                    Err(_) => Err(LeafErr::NoMemory),
                }
            }
            TokenKind::Name
            | TokenKind::Symbol
            | TokenKind::Cut
            | TokenKind::Semicolon
            | TokenKind::Comma => match plain_name(token.text) {
                Some(name) => Ok(Leaf::Name(name)),
                None => Err(LeafErr::NotText),
            },
            TokenKind::Quoted => match unquoted_name(alloc, token.text) {
                Ok(name) => Ok(Leaf::Unquoted(name)),
                Err(e) => Err(e),
            },
            TokenKind::Integer
            | TokenKind::Bar
            | TokenKind::Open
            | TokenKind::Close
            | TokenKind::OpenList
            | TokenKind::CloseList
            | TokenKind::End => Ok(Leaf::Mark),
        }
    }
}

/// A text without its first byte.
fn inside(text: &[u8]) -> &[u8]
    ensures { result.now ≡ drop 1 text.now }
{
    match text {
        [_, inside @ ..] => inside,
        [] => text,
    }
}

/// The name that a quoted token is.
fn unquoted_name(alloc: Global, text: &[u8]) -> Result<String, LeafErr>
    ensures { NameFor text.now result }
{
    let Ok(characters) = unquoted(alloc, inside(text)) else {
        return Err(LeafErr::NoMemory);
    };
    match String::from_utf8(characters) {
        Ok(name) => Ok(name),
        Err(_) => Err(LeafErr::NotText),
    }
}

/// What the tokens are, by place, and the names of the variables by number.
pub(crate) fn leaves<'a>(
    alloc: Global,
    room: &mut Room<'a>,
    tokens: &[Token<'a>],
) -> Result<(Vec<Leaf<'a>>, Vec<&'a str>), LeafErr>
    ensures { LeavesFor (map view tokens.now) (both_items result) }
{
    let mut variables = Variables::new(alloc, room.names(alloc));
    let Ok(mut out) = room.leaves(alloc, tokens.len()) else {
        return Err(LeafErr::NoMemory);
    };
    let mut left = tokens;
    while let [token, rest @ ..] = left {
        match variables.leaf(alloc, token) {
            Ok(leaf) => {
                let Ok(()) = push(&mut out, leaf) else {
                    return Err(LeafErr::NoMemory);
                };
            }
            Err(e) => return Err(e),
        }
        left = rest;
    }
    Ok((out, variables.names))
}

/// The name that a token is, and an empty one where it is none.
pub(crate) fn name_at<'l>(leaves: &'l [Leaf], at: usize) -> &'l str
    ensures { result.now ≡ spec.name_at (map spec.leaf_of leaves.now) at }
{
    match leaves.get(at) {
        Some(Leaf::Name(name)) => name,
        Some(Leaf::Unquoted(name)) => name.as_str(),
        _ => "",
    }
}
