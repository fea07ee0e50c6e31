// The pass that finds a term: one word after another, over what is open.
ghost use Rattle.std.specs.Prelude.{◌≡◌, ℕ, ◌+◌, ◌^◌, ◌≤◌, pos, neg_ℤ, List, [], ◌∷◌, ◌++◌, true, None, Some, map, vec_len, OnOk, OnErr, MatchOption};
ghost use Rattle.ap_reader.specs.declared.pass.Open.{Open};
ghost use Rattle.ap_reader.specs.declared.pass.Step.{Step};
ghost use Rattle.ap_reader.specs.Grammar.{Tree, spelled, IsWhole, infix_rank, prefix_rank};
ghost use Rattle.ap_reader.specs.Machine.{Frame, State, Has, room, reduced, prefixed, shifted, closed, list_closed, parted, barred, on_want, on_has, next, parsed};

use crate::operators::{infix_of, left_max, right_max};
use crate::room::Room;
use crate::word::{Word, comma_word, number_word, word_of};
use ap_lexer::{Token, TokenKind, push};
use std::alloc::{AllocFailed, Global};

/// What is found, each step after those of its operands. A number is the place of a token.
#[derive(Clone, Copy, Debug, PartialEq, Eq)]
pub enum Step {
    Operand(usize),
    Integer(i64),
    Prefix(usize),
    Infix(usize),
    /// Parentheses round the last operand.
    Group,
    /// Items begin, with none.
    Begin,
    /// The last operand joins the items below it.
    Item,
    /// A compound of the items and the last operand.
    Compound(usize),
    /// The empty list, of the items that began.
    Empty,
    /// A list of the items and the last operand.
    List,
    /// A list of the items and the last operand but one, with the last operand as its tail.
    Tailed,
}

#[derive(Clone, Copy, Debug, PartialEq, Eq)]
pub enum ParseErr {
    NotATerm,
    NoMemory,
}

/// What is open.
#[derive(Clone, Copy, Debug, PartialEq, Eq)]
pub enum Open {
    Prefix(Word),
    Infix(Word),
    Group,
    Call(usize),
    /// A list, and whether it has an item.
    List(bool),
    Tail,
}

/// What is round a term that a comma follows.
#[derive(Clone, Copy, Debug, PartialEq, Eq)]
pub(crate) enum Around {
    Call,
    List,
    /// What takes the comma as an operator.
    Operand,
}

#[derive(Clone, Copy, Debug, PartialEq, Eq)]
pub enum Mode {
    Wants,
    Signed,
    Called(usize),
    Has,
}

ghost use Rattle.ap_reader.specs.declared.pass.ParseErr.TheVariants.{NoMemory};

impl<T: Drop> From<AllocFailed<T>> for ParseErr {
    ghost from_gives = { λ _ e. e ≡ NoMemory };

    fn from(_e: AllocFailed<T>) -> ParseErr {
        ParseErr::NoMemory
    }
}

fn infix_rank(word: Word) -> u16
    ensures { result ≡ infix_rank word }
{
    match word {
        Word::Operator(_, infix, _) => infix,
        Word::Functor(_, infix) => infix,
        Word::Sign(_, infix) => infix,
        Word::Comma(_) => infix_of(b","),
        _ => 0,
    }
}

fn prefix_rank(word: Word) -> u16
    ensures { result ≡ prefix_rank word }
{
    match word {
        Word::Operator(_, _, prefix) => prefix,
        _ => 0,
    }
}

ghost use Rattle.ap_lexer.specs.Token.{view};
ghost use Rattle.ap_reader.specs.Word.{words, word_by, seen};
ghost use Rattle.ap_reader.specs.Step.{place, innermost, opens, Holds, Awaits, Shows, Follows, Finds, items_of, due, Takes};

pub(crate) fn place(word: Word) -> usize
    ensures { result ≡ place word }
{
    match word {
        Word::Operand(at)
        | Word::Sign(at, _)
        | Word::Operator(at, _, _)
        | Word::Functor(at, _)
        | Word::Comma(at) => at,
        _ => 0,
    }
}

/// The integer below zero of that magnitude.
fn negative(magnitude: u64) -> i64
    requires { magnitude ≤ 2 ^ 63 }
    ensures { result ≡ neg_ℤ (pos magnitude) }
{
    (-i128::from(magnitude)) as i64
}

/// The greatest priority that an operand may have behind what is open last.
fn room(stack: &[Open]) -> u16
    ensures { (s : List Frame) → stack.now ≡ opens s → result ≡ room s }
{
    match stack.last() {
        None | Some(Open::Group) => 1200,
        Some(Open::Prefix(word)) => right_max(prefix_rank(*word)),
        Some(Open::Infix(word)) => right_max(infix_rank(*word)),
        Some(_) => 999,
    }
}

/// What is round the next comma, by what is open last.
fn innermost(stack: &[Open]) -> Around
    ensures { (s : List Frame) → stack.now ≡ opens s → result ≡ innermost s }
{
    match stack.last() {
        Some(Open::Call(_)) => Around::Call,
        Some(Open::List(_)) => Around::List,
        _ => Around::Operand,
    }
}

/// What an open operator of priority at most `most` gives when it takes its operand.
fn due(top: Open, most: u16) -> Option<Step>
    ensures { result ≡ due most top }
{
    match top {
        Open::Prefix(word) if prefix_rank(word) <= most => Some(Step::Prefix(place(word))),
        Open::Infix(word) if infix_rank(word) <= most => Some(Step::Infix(place(word))),
        _ => None,
    }
}

/// What the operator that is open last gives, where it takes its operand.
fn due_last(stack: &[Open], most: u16) -> Option<Step>
    ensures { MatchOption result
        ((rest : List Open) (opened : Open) → stack.now ≡ rest ++ opened ∷ [] → due most opened ≡ None)
        (λ step. (rest : List Open) × (opened : Open) × (stack.now ≡ rest ++ opened ∷ []) × (due most opened ≡ Some step)) }
{
    match stack.split_last() {
        Some((top, _)) => due(*top, most),
        None => None,
    }
}

/// What is open, and the steps that were given.
#[derive(Drop)]
pub(crate) struct Pass {
    pub(crate) stack: Vec<Open>,
    pub(crate) out: Vec<Step>,
}

impl Pass {
    pub(crate) fn new(alloc: Global) -> Pass
        ensures { Awaits [] result.stack.items result.out.items }
    {
        Pass {
            stack: Vec::new(alloc),
            out: Vec::new(alloc),
        }
    }

    /// Lets the operator that is open last take its operand, where its priority is at most `most`.
    #[inline(always)]
    fn take_top(&mut self, most: u16) -> Result<bool, ParseErr>
        ensures taken { Takes most self.old.stack.items self.old.out.items result self.new.stack.items self.new.out.items }
        ensures shorter { result ≡ Ok true → vec_len self.new.stack + 1 ≡ vec_len self.old.stack }
    {
        let Some(step) = due_last(&self.stack, most) else {
            return Ok(false);
        };
        let _taken = self.stack.pop();
        push(&mut self.out, step)?;
        Ok(true)
    }

    /// Lets each open operator of priority at most `most` take its operand.
    #[inline(always)]
    pub(crate) fn reduce(&mut self, most: u16) -> Result<(), ParseErr>
        ensures done { OnOk result ((gone : List Step) (t : Tree) (s : List Frame) → Holds t s self.old.stack.items (gone ++ self.old.out.items) → Shows (reduced most t s) Mode.Has self.new.stack.items (gone ++ self.new.out.items)) }
        ensures fault { OnErr result (result ≡ Err NoMemory) }
    {
        while self.take_top(most)? {}
        Ok(())
    }

    /// The operator behind the term.
    fn shift(&mut self, word: Word) -> Result<Mode, ParseErr>
        ensures { (gone : List Step) (t : Tree) (s : List Frame) → Holds t s self.old.stack.items (gone ++ self.old.out.items) → Follows (shifted word (Has t s)) result self.new.stack.items (gone ++ self.new.out.items) }
    {
        let rank = infix_rank(word);
        if 0 < rank && rank <= room(&self.stack) {
            push(&mut self.stack, Open::Infix(word))?;
            Ok(Mode::Wants)
        } else {
            Err(ParseErr::NotATerm)
        }
    }

    fn prefix(&mut self, word: Word) -> Result<Mode, ParseErr>
        ensures { (gone : List Step) (s : List Frame) → Awaits s self.old.stack.items (gone ++ self.old.out.items) → Follows (prefixed word s) result self.new.stack.items (gone ++ self.new.out.items) }
    {
        let rank = prefix_rank(word);
        if 0 < rank && rank <= room(&self.stack) {
            push(&mut self.stack, Open::Prefix(word))?;
            Ok(Mode::Wants)
        } else {
            Err(ParseErr::NotATerm)
        }
    }

    /// A closing parenthesis behind the term.
    #[inline(always)]
    fn close(&mut self) -> Result<Mode, ParseErr>
        ensures { (gone : List Step) (t : Tree) (s : List Frame) → Holds t s self.old.stack.items (gone ++ self.old.out.items) → Follows (closed (Has t s)) result self.new.stack.items (gone ++ self.new.out.items) }
    {
        match self.stack.pop() {
            Some(Open::Group) => {
                push(&mut self.out, Step::Group)?;
                Ok(Mode::Has)
            }
            Some(Open::Call(at)) => {
                push(&mut self.out, Step::Compound(at))?;
                Ok(Mode::Has)
            }
            _ => Err(ParseErr::NotATerm),
        }
    }

    #[inline(always)]
    fn close_list(&mut self) -> Result<Mode, ParseErr>
        ensures { (gone : List Step) (t : Tree) (s : List Frame) → Holds t s self.old.stack.items (gone ++ self.old.out.items) → Follows (list_closed (Has t s)) result self.new.stack.items (gone ++ self.new.out.items) }
    {
        match self.stack.pop() {
            Some(Open::List(_)) => {
                push(&mut self.out, Step::List)?;
                Ok(Mode::Has)
            }
            Some(Open::Tail) => {
                push(&mut self.out, Step::Tailed)?;
                Ok(Mode::Has)
            }
            _ => Err(ParseErr::NotATerm),
        }
    }

    fn bar(&mut self) -> Result<Mode, ParseErr>
        ensures { (gone : List Step) (t : Tree) (s : List Frame) → Holds t s self.old.stack.items (gone ++ self.old.out.items) → Follows (barred (Has t s)) result self.new.stack.items (gone ++ self.new.out.items) }
    {
        match self.stack.pop() {
            Some(Open::List(_)) => {
                push(&mut self.stack, Open::Tail)?;
                Ok(Mode::Wants)
            }
            _ => Err(ParseErr::NotATerm),
        }
    }

    #[inline(always)]
    fn comma(&mut self, at: usize) -> Result<Mode, ParseErr>
        ensures { (gone : List Step) (t : Tree) (s : List Frame) → Holds t s self.old.stack.items (gone ++ self.old.out.items) → Follows (parted at (Has t s)) result self.new.stack.items (gone ++ self.new.out.items) }
    {
        match innermost(&self.stack) {
            Around::Call => {
                push(&mut self.out, Step::Item)?;
                Ok(Mode::Wants)
            }
            Around::List => {
                let _open = self.stack.pop();
                push(&mut self.stack, Open::List(true))?;
                push(&mut self.out, Step::Item)?;
                Ok(Mode::Wants)
            }
            Around::Operand => self.shift(Word::Comma(at)),
        }
    }

    fn close_empty(&mut self) -> Result<Mode, ParseErr>
        ensures { (gone : List Step) (s : List Frame) → Awaits s self.old.stack.items (gone ++ self.old.out.items) → Follows (on_want s Word.CloseList) result self.new.stack.items (gone ++ self.new.out.items) }
    {
        match self.stack.pop() {
            Some(Open::List(false)) => {
                push(&mut self.out, Step::Empty)?;
                Ok(Mode::Has)
            }
            _ => Err(ParseErr::NotATerm),
        }
    }

    #[inline(always)]
    fn on_want(&mut self, word: Word) -> Result<Mode, ParseErr>
        ensures { (gone : List Step) (s : List Frame) → Awaits s self.old.stack.items (gone ++ self.old.out.items) → Follows (on_want s word) result self.new.stack.items (gone ++ self.new.out.items) }
    {
        match word {
            Word::Operand(at) => {
                push(&mut self.out, Step::Operand(at))?;
                Ok(Mode::Has)
            }
            Word::Number(n) if n < 1 << 63 => {
                push(&mut self.out, Step::Integer(n as i64))?;
                Ok(Mode::Has)
            }
            Word::Sign(_, _) => Ok(Mode::Signed),
            Word::Operator(_, _, _) => self.prefix(word),
            Word::Functor(at, _) => Ok(Mode::Called(at)),
            Word::Open => {
                push(&mut self.stack, Open::Group)?;
                Ok(Mode::Wants)
            }
            Word::OpenList => {
                push(&mut self.stack, Open::List(false))?;
                push(&mut self.out, Step::Begin)?;
                Ok(Mode::Wants)
            }
            Word::CloseList => self.close_empty(),
            Word::Number(_) | Word::Close | Word::Comma(_) | Word::Bar | Word::Other => Err(
                ParseErr::NotATerm,
            ),
        }
    }

    #[inline(always)]
    fn on_has(&mut self, word: Word) -> Result<Mode, ParseErr>
        ensures { (gone : List Step) (t : Tree) (s : List Frame) → Holds t s self.old.stack.items (gone ++ self.old.out.items) → Follows (on_has t s word) result self.new.stack.items (gone ++ self.new.out.items) }
    {
        match word {
            Word::Operator(_, _, _) | Word::Functor(_, _) | Word::Sign(_, _) => {
                self.reduce(left_max(infix_rank(word)))?;
                self.shift(word)
            }
            Word::Comma(at) => {
                self.reduce(999)?;
                self.comma(at)
            }
            Word::Bar => {
                self.reduce(999)?;
                self.bar()
            }
            Word::Close => {
                self.reduce(1200)?;
                self.close()
            }
            Word::CloseList => {
                self.reduce(999)?;
                self.close_list()
            }
            Word::Operand(_) | Word::Number(_) | Word::Open | Word::OpenList | Word::Other => {
                Err(ParseErr::NotATerm)
            }
        }
    }

    #[inline(always)]
    fn next(&mut self, mode: Mode, word: Word) -> Result<Mode, ParseErr>
        ensures { (gone : List Step) (x : State) → Shows x mode self.old.stack.items (gone ++ self.old.out.items) → Follows (next x word) result self.new.stack.items (gone ++ self.new.out.items) }
    {
        match mode {
            Mode::Wants => self.on_want(word),
            Mode::Has => self.on_has(word),
            Mode::Signed => match word {
                Word::Number(n) if n <= 1 << 63 => {
                    push(&mut self.out, Step::Integer(negative(n)))?;
                    Ok(Mode::Has)
                }
                _ => Err(ParseErr::NotATerm),
            },
            Mode::Called(at) => match word {
                Word::Open => {
                    push(&mut self.stack, Open::Call(at))?;
                    push(&mut self.out, Step::Begin)?;
                    Ok(Mode::Wants)
                }
                _ => Err(ParseErr::NotATerm),
            },
        }
    }

    /// The next token, by the kind of the one before it and the one behind it. The word of most is known by its kind; the arms name
    /// the words that are met most, so that `next` is compiled for each of them.
    #[inline(always)]
    pub(crate) fn take(
        &mut self,
        mode: Mode,
        at: usize,
        before: Option<TokenKind>,
        token: &Token,
        after: Option<&Token>,
    ) -> Result<Mode, ParseErr>
        ensures { (gone : List Step) (x : State) → Shows x mode self.old.stack.items (gone ++ self.old.out.items) → Follows (next x (word_by token.now.kind at before (view token.now) (seen after.entry))) result self.new.stack.items (gone ++ self.new.out.items) }
    {
        match token.kind {
            TokenKind::Variable => self.next(mode, Word::Operand(at)),
            TokenKind::Integer => match number_word(token.text) {
                Word::Number(n) => self.next(mode, Word::Number(n)),
                word => self.next(mode, word),
            },
            TokenKind::Open => self.next(mode, Word::Open),
            TokenKind::Close => self.next(mode, Word::Close),
            TokenKind::OpenList => self.next(mode, Word::OpenList),
            TokenKind::CloseList => self.next(mode, Word::CloseList),
            TokenKind::Bar => self.next(mode, Word::Bar),
            TokenKind::Comma => match comma_word(at, before, after) {
                Word::Operand(at) => self.next(mode, Word::Operand(at)),
                Word::Comma(at) => self.next(mode, Word::Comma(at)),
                word => self.next(mode, word),
            },
            _ => match word_of(at, before, token, after) {
                Word::Operand(at) => self.next(mode, Word::Operand(at)),
                Word::Functor(at, infix) => self.next(mode, Word::Functor(at, infix)),
                word => self.next(mode, word),
            },
        }
    }
}

/// The steps of the one term that the tokens spell. No token gives more than one.
pub(crate) fn steps(
    alloc: Global,
    room: &mut Room<'_>,
    tokens: &[Token],
) -> Result<Vec<Step>, ParseErr>
    ensures { Finds (words (map view tokens.now)) (items_of result) }
{
    let Ok(out) = room.steps(alloc, tokens.len()) else {
        return Err(ParseErr::NoMemory);
    };
    let mut pass = Pass {
        stack: room.open(alloc),
        out,
    };
    let mut mode = Mode::Wants;
    let mut before = None;
    let mut at = 0;
    let mut rest = tokens;
    while let [token, after @ ..] = rest {
        match pass.take(mode, at, before, token, after.first()) {
            Ok(next) => mode = next,
            Err(fault) => return Err(fault),
        }
        before = Some(token.kind);
        at += 1;
        rest = after;
    }
    let Mode::Has = mode else {
        return Err(ParseErr::NotATerm);
    };
    pass.reduce(1200)?;
    if pass.stack.is_empty() {
        room.take_open(pass.stack);
        Ok(pass.out)
    } else {
        Err(ParseErr::NotATerm)
    }
}
