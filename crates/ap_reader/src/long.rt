//! The steps of a long term, one after another, without a list of its tokens or of their leaves.

ghost use Rattle.std.specs.Prelude.{◌≡◌, ◌≤◌, ◌++◌, ℕ, List, [], Some, None, Err, false, length, map, slice_get, nat_lt, IfOk, OnOk, OnErr};
ghost use Rattle.ap_lexer.specs.Lexeme.{Text};
ghost use Rattle.ap_lexer.specs.Token.{Placed, view};
ghost use Rattle.ap_lexer.specs.Stream as stream;
ghost use Rattle.ap_reader.specs.Bracket.{most_open};
ghost use Rattle.ap_reader.specs.Depth.{depth};
ghost use Rattle.ap_reader.specs.Build.{Extends};
ghost use Rattle.ap_reader.specs.Grammar.{Tree};
ghost use Rattle.ap_reader.specs.Reading.{Spells, first_line, term_of};
ghost use Rattle.ap_reader.specs.declared.depth.TheConstants.{MAX_DEPTH};
ghost use Rattle.ap_reader.specs.Long.{Answers, IsBuilt, Runs, Nexts, IsReady, Takes, Between, Holds, IsAlike, IsSame, look, leaves_of};
ghost use Rattle.ap_reader.specs.Written.{Written, leaf_of, leaves, variables};
ghost use Rattle.ap_reader.specs.declared.pass.ParseErr.TheVariants.{NoMemory};
ghost use Rattle.ap_reader.specs.declared.pass.Step.{Step};

use crate::bracket::open_after;
use crate::build::add;
use crate::depth::Heights;
use crate::kept::Kept;
use crate::leaf::{Leaf, LeafErr, Variables};
use crate::pass::{Mode, Open, ParseErr, Pass, Step};
use crate::room::Room;
use crate::written::MAX_OPEN;
use ap_lexer::{Token, TokenKind, Tokens};
use ap_term::{Atoms, InternErr, Term};
use std::alloc::Global;

/// The steps of the term that tokens spell, as they are found. A leaf is kept from when its token is met until its
/// step is given.
#[derive(Drop)]
pub struct Steps<'a> {
    tokens: Tokens<'a>,
    /// The next token. What it is depends on the one behind it, so that one is cut before.
    token: Option<Token<'a>>,
    before: Option<TokenKind>,
    at: usize,
    mode: Mode,
    pass: Pass,
    /// How many of the pass's steps were given.
    given: usize,
    variables: Variables<'a>,
    /// The leaf of the token before, until it's known whether its step comes later.
    last: Option<Leaf<'a>>,
    kept: Kept<'a>,
    /// Whether the step that was given last named what is kept last.
    is_spent: bool,
    /// Whether the end token was taken.
    is_over: bool,
}

impl<'a> Steps<'a> {
    pub fn new(alloc: Global, tokens: Tokens<'a>) -> Steps<'a>
        requires { stream.Stands tokens }
        ensures ready { IsReady result }
        ensures runs { (ts : List Placed) → stream.Gives tokens.entry ts → Runs ts [] result }
    {
        let mut tokens = tokens;
        let token = tokens.next();
        Steps {
            tokens,
            token,
            before: None,
            at: 0,
            mode: Mode::Wants,
            pass: Pass::new(alloc),
            given: 0,
            variables: Variables::new(alloc, Vec::new(alloc)),
            last: None,
            kept: Kept::new(alloc),
            is_spent: false,
            is_over: false,
        }
    }

    /// The leaves among which the step that was given last names one, by its place.
    pub fn leaves(&self) -> &[Leaf<'a>]
        ensures { map leaf_of result.now ≡ leaves_of self.now }
    {
        self.kept.leaves()
    }

    /// Takes the names of the variables, by number from 1.
    pub fn take_names(&mut self, alloc: Global) -> Vec<&'a str>
        ensures { result ≡ self.old.variables.names }
    {
        std::mem::replace(&mut self.variables.names, Vec::new(alloc))
    }

    /// Finds the next step, if there is one. What it names is among the leaves.
    ///
    /// # Errors
    /// `NotATerm` where the tokens spell no term, and `NoMemory`.
    pub fn next(&mut self, alloc: Global) -> Result<Option<Step>, ParseErr>
        requires { IsReady self.old }
        ensures ready { OnOk result (IsReady self.new) }
        ensures next { (ts : List Placed) (done : List Step) → Runs ts done self.old → Nexts ts done result self.new }
    {
        self.let_spent_go();
        for _token in 0..u64::MAX {
            if let Some(step) = self.pass.out.get(self.given) {
                let step = *step;
                return self.give(step);
            }
            if self.is_over {
                return Ok(None);
            }
            if let Err(fault) = self.take_next(alloc) {
                return Err(fault);
            }
        }
        Err(ParseErr::NoMemory)
    }

    /// Lets go what the step that was given last named.
    fn let_spent_go(&mut self)
        ensures same { IsAlike self.old self.new }
        ensures keeps { (passed : List Written) → Holds passed self.old → Holds passed self.new }
    {
        if self.is_spent {
            self.kept.let_go();
            self.is_spent = false;
        }
    }

    /// Gives a step with the place of what it names among the leaves.
    fn give(&mut self, step: Step) -> Result<Option<Step>, ParseErr>
        requires ready { IsReady self.old }
        requires here { slice_get self.old.pass.out.items self.old.given ≡ Some step }
        ensures ready { IsReady self.new }
        ensures next { (ts : List Placed) (done : List Step) → Runs ts done self.old → Nexts ts done result self.new }
    {
        self.given += 1;
        match self.named(step) {
            Ok(step) => Ok(Some(step)),
            Err(_) => Err(ParseErr::NoMemory),
        }
    }

    /// A step with the place of what it names among the leaves.
    fn named(&mut self, step: Step) -> Result<Step, ParseErr>
        ensures same { IsAlike self.old self.new }
        ensures named { OnOk result ((passed : List Written) → Holds passed self.old → Holds passed self.new) }
        ensures step { IfOk result (λ s. (passed more : List Written) → Holds passed self.old → IsSame (passed ++ more) (leaves_of self.new) step s) }
    {
        match step {
            Step::Operand(at) => {
                self.keep_last()?;
                match self.spend(at) {
                    Ok(place) => Ok(Step::Operand(place)),
                    Err(fault) => Err(fault),
                }
            }
            Step::Prefix(at) => match self.spend(at) {
                Ok(place) => Ok(Step::Prefix(place)),
                Err(fault) => Err(fault),
            },
            Step::Infix(at) => match self.spend(at) {
                Ok(place) => Ok(Step::Infix(place)),
                Err(fault) => Err(fault),
            },
            Step::Compound(at) => match self.spend(at) {
                Ok(place) => Ok(Step::Compound(place)),
                Err(fault) => Err(fault),
            },
            _ => Ok(step),
        }
    }

    /// The place of what is kept last, which is the leaf of the token at a place.
    #[tactic(auto, using(crate::proofs::Taking::look_more))]
    fn spend(&mut self, at: usize) -> Result<usize, ParseErr>
        ensures same { IsAlike self.old self.new }
        ensures last { self.new.last ≡ self.old.last }
        ensures kept { self.new.kept ≡ self.old.kept }
        ensures place { IfOk result (λ n. (passed more : List Written) → Holds passed self.old → look (leaves_of self.new) n ≡ look (passed ++ more) at) }
    {
        if !self.kept.ends_with(at) {
            return Err(ParseErr::NoMemory);
        }
        self.is_spent = true;
        Ok(self.kept.top())
    }

    /// Keeps the leaf of the token before.
    fn keep_last(&mut self) -> Result<(), ParseErr>
        ensures same { IsAlike self.old self.new }
        ensures keeps { OnOk result ((passed : List Written) → Holds passed self.old → Holds passed self.new) }
        ensures fault { OnErr result (result ≡ Err NoMemory) }
    {
        let last = std::mem::replace(&mut self.last, None);
        match last {
            Some(leaf) => self.kept.put(self.at.saturating_sub(1), leaf),
            None => Ok(()),
        }
    }

    /// Keeps the leaf of the token before where its step comes later.
    fn keep_open(&mut self) -> Result<(), ParseErr>
        ensures same { IsAlike self.old self.new }
        ensures keeps { OnOk result ((passed : List Written) → Holds passed self.old → Holds passed self.new) }
        ensures fault { OnErr result (result ≡ Err NoMemory) }
    {
        if self.is_last_open() {
            self.keep_last()
        } else {
            Ok(())
        }
    }

    /// Whether the token before is an operator or a functor whose step comes later.
    fn is_last_open(&self) -> bool {
        match self.mode {
            Mode::Called(_) => true,
            Mode::Wants => matches!(
                self.pass.stack.last(),
                Some(Open::Prefix(_) | Open::Infix(_))
            ),
            Mode::Has | Mode::Signed => false,
        }
    }

    /// Takes the next token when all steps were given, so that its own can be.
    fn take_next(&mut self, alloc: Global) -> Result<(), ParseErr>
        requires ready { IsReady self.old }
        requires given { length self.old.pass.out.items ≤ self.old.given }
        requires over { self.old.is_over ≡ false }
        ensures ready { OnOk result (IsReady self.new) }
        ensures taken { (ts : List Placed) (done : List Step) → Runs ts done self.old → Takes ts done result self.new }
    {
        if let Err(fault) = self.keep_open() {
            return Err(fault);
        }
        self.pass.out.clear();
        self.given = 0;
        let Some(token) = self.token else {
            return Err(ParseErr::NotATerm);
        };
        self.token = self.tokens.next();
        match self.token {
            Some(after) => self.take(alloc, token, after),
            None => self.end(token.kind),
        }
    }

    /// Takes a token that another one follows.
    fn take(&mut self, alloc: Global, token: Token<'a>, after: Token<'a>) -> Result<(), ParseErr>
        requires { IsReady self.old }
        ensures ready { OnOk result (IsReady self.new) }
        ensures taken { (ts : List Placed) (done : List Step) → Between ts done (view token.entry) self.old → self.old.token ≡ Some after.entry → Takes ts done result self.new }
    {
        match self
            .pass
            .take(self.mode, self.at, self.before, &token, Some(&after))
        {
            Ok(mode) => self.mode = mode,
            Err(fault) => return Err(fault),
        }
        let Some(at) = self.at.checked_add(1) else {
            return Err(ParseErr::NoMemory);
        };
        match self.variables.leaf(alloc, &token) {
            Ok(leaf) => self.last = Some(leaf),
            Err(LeafErr::NotText) => return Err(ParseErr::NotATerm),
            Err(LeafErr::NoMemory) => return Err(ParseErr::NoMemory),
        }
        self.before = Some(token.kind);
        self.at = at;
        Ok(())
    }

    /// Takes the last token, which must be an end.
    fn end(&mut self, kind: TokenKind) -> Result<(), ParseErr>
        requires { IsReady self.old }
        ensures ready { OnOk result (IsReady self.new) }
        ensures taken { (ts : List Placed) (done : List Step) (t : Placed) → Between ts done t self.old → t.kind ≡ kind → self.old.token ≡ None → Takes ts done result self.new }
    {
        let TokenKind::End = kind else {
            return Err(ParseErr::NotATerm);
        };
        let Mode::Has = self.mode else {
            return Err(ParseErr::NotATerm);
        };
        self.pass.reduce(1200)?;
        if self.pass.stack.is_empty() {
            self.is_over = true;
            Ok(())
        } else {
            Err(ParseErr::NotATerm)
        }
    }
}

/// The line of the first token.
pub fn first_line_of(tokens: Tokens) -> u64
    requires { stream.Stands tokens }
    ensures { (ts : List Placed) → stream.Gives tokens.entry ts → result ≡ first_line ts }
{
    let mut tokens = tokens;
    match tokens.next() {
        Some(token) => token.line,
        None => 1,
    }
}

/// Whether more than `MAX_OPEN` brackets are open at once.
pub fn are_too_open(tokens: Tokens) -> bool
    requires { stream.Stands tokens }
    ensures { (ts : List Placed) → stream.Gives tokens.entry ts → result ≡ nat_lt MAX_OPEN (most_open 0 ts) }
{
    let mut tokens = tokens;
    let mut most: usize = 0;
    let mut open: usize = 0;
    while let Some(token) = tokens.next() {
        open = open_after(token.kind, open);
        most = most.max(open);
    }
    most > MAX_OPEN
}

/// Whether the term that tokens spell is deeper than `MAX_DEPTH`.
///
/// # Errors
/// `NotATerm` where they spell none, and `NoMemory`.
pub fn are_too_deep(alloc: Global, tokens: Tokens) -> Result<bool, ParseErr>
    requires { stream.Stands tokens }
    ensures { (ts : List Placed) → stream.Gives tokens.entry ts → Answers ts (λ front t b. b ≡ nat_lt MAX_DEPTH (depth (term_of front t))) result }
{
    let mut steps = Steps::new(alloc, tokens);
    let mut heights = Heights::new(alloc);
    for _step in 0..u64::MAX {
        match steps.next(alloc) {
            Ok(Some(step)) => {
                let Ok(()) = heights.add(steps.leaves(), step) else {
                    return Err(ParseErr::NoMemory);
                };
            }
            Ok(None) => return Ok(heights.is_too_deep()),
            Err(fault) => return Err(fault),
        }
    }
    Err(ParseErr::NoMemory)
}

/// The term that tokens spell, and the names of its variables. Its names go into the table of atoms as they come; after
/// an error the table has some of them.
pub fn long_term<'a>(
    alloc: Global,
    tokens: Tokens<'a>,
    room: &mut Room,
    atoms: &mut Atoms,
) -> Result<(Term, Vec<&'a str>), InternErr>
    requires { stream.Stands tokens }
    ensures term { (ts front : List Placed) (t : Tree) → stream.Gives tokens.entry ts → Spells ts front t → IsBuilt (leaves [] front) t (variables [] front) atoms.old atoms.new result }
    ensures grows { Extends atoms.old atoms.new }
{
    let mut steps = Steps::new(alloc, tokens);
    room.stack.clear();
    for _step in 0..u64::MAX {
        match steps.next(alloc) {
            Ok(Some(step)) => {
                match add(
                    alloc,
                    &mut room.stack,
                    steps.leaves(),
                    &mut room.recent,
                    atoms,
                    step,
                ) {
                    Ok(()) => {}
                    Err(e) => return Err(e),
                }
            }
            Ok(None) => return Ok((room.stack.take(), steps.take_names(alloc))),
            Err(_) => return Err(InternErr::NoMemory),
        }
    }
    Err(InternErr::NoMemory)
}
