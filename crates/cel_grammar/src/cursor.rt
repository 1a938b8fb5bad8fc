ghost use Rattle.std.specs.Prelude.{◌≡◌, if◌then◌else◌, length, slice_get};
ghost use Rattle.std.specs.Option.{option_copied};
ghost use Rattle.cel_grammar.specs.Position as position;
ghost use Rattle.cel_grammar.specs.Reader as spec;
ghost use Rattle.cel_grammar.specs.Reader.{Reads};

use crate::level::{Level, op_of};
use crate::stop::Stop;
use cel_tree::{Op, Sign, Span, Token, TokenKind, Tokens};
use iam_text::{Text, let_go};
use std::collections::VecDeque;
use std::marker::Model;

/// A position in a list of tokens. It holds those that are left, and hands on what it takes of them.
#[derive(Drop)]
pub struct Cursor {
    last: u32,
    rest: VecDeque<Token>,
}

impl Model for Cursor {
    ghost use Rattle.cel_grammar.specs.Position.{Position};

    ghost Value = { Position };

    ghost view = { λ c. record { last = c.last; rest = c.rest.items } };
}

#[tactic(auto, unfolding(crate::specs::Reader::same_sign))]
fn same_sign(a: Sign, b: Sign) -> bool
    ensures { result ≡ spec.same_sign a b }
{
    a == b
}

fn is_sign(sign: Sign, kind: &TokenKind) -> bool
    ensures { result ≡ spec.is_sign sign kind.now }
{
    match kind {
        TokenKind::Sign(x) => same_sign(*x, sign),
        _ => false,
    }
}

impl Cursor {
    pub fn new(tokens: Tokens) -> Cursor
        ensures { result ≡ position.start_of tokens }
    {
        Cursor {
            last: 0,
            rest: tokens.into_deque(),
        }
    }

    /// How many tokens are left.
    pub fn left(&self) -> usize
        ensures { result ≡ length self.now.rest }
    {
        self.rest.len()
    }

    fn peek(&self, at: usize) -> Option<&Token>
        ensures { option_copied result ≡ slice_get self.now.rest at }
    {
        self.rest.get(at)
    }

    /// Where the next token begins.
    #[tactic(auto, using(crate::proofs::Peeked::is_first, crate::proofs::Peeked::is_empty))]
    pub fn from(&self) -> u32
        ensures { result ≡ position.from self.now }
    {
        match self.peek(0) {
            Some(first) => first.span.from,
            None => self.last,
        }
    }

    /// From there to the last token that was taken.
    pub fn span(&self, from: u32) -> Span
        ensures { result ≡ record { from = from; to = self.now.last } }
    {
        Span {
            from,
            to: self.last,
        }
    }

    /// Takes the next token.
    pub fn take(&mut self) -> Option<TokenKind>
        ensures first { result ≡ spec.first self.old }
        ensures rest { self.new ≡ spec.next self.old }
    {
        let Token { span, kind } = self.rest.pop_front()?;
        self.last = span.to;
        Some(kind)
    }

    /// Passes over the next token.
    pub fn skip(&mut self)
        ensures { self.new ≡ spec.next self.old }
    {
        let_go(self.take());
    }

    #[tactic(auto, using(crate::proofs::Peeked::is_first, crate::proofs::Peeked::is_empty))]
    pub fn sees(&self, sign: Sign) -> bool
        ensures { result ≡ spec.sees sign self.now }
    {
        match self.peek(0) {
            Some(first) => is_sign(sign, &first.kind),
            None => false,
        }
    }

    // The next token but one is a number.
    #[tactic(auto, using(crate::proofs::Peeked::is_second, crate::proofs::Peeked::is_short))]
    fn number_follows(&self) -> bool
        ensures { result ≡ position.sees_number (spec.next self.now) }
    {
        match self.peek(1) {
            Some(second) => matches!(second.kind, TokenKind::Number(_)),
            None => false,
        }
    }

    /// Takes a minus that is no part of a literal, if it comes next.
    pub fn eat_negation(&mut self) -> bool
        ensures found { result ≡ spec.sees_negation self.old }
        ensures after { self.new ≡ (if result then spec.next self.old else self.old) }
    {
        if !self.sees(Sign::Minus) {
            return false;
        }
        if self.number_follows() {
            return false;
        }
        self.skip();
        true
    }

    /// Takes the sign, if it comes next.
    pub fn eat(&mut self, sign: Sign) -> bool
        ensures found { result ≡ spec.sees sign self.old }
        ensures after { self.new ≡ spec.eaten sign self.old }
    {
        let found = self.sees(sign);
        if found {
            self.skip();
        }
        found
    }

    pub fn expect(&mut self, sign: Sign) -> Result<(), Stop>
        ensures { Reads (spec.expect sign self.old) result self.new }
    {
        if self.sees(sign) {
            self.skip();
            Ok(())
        } else {
            Err(Stop::NotAnExpression)
        }
    }

    /// The operator of the level that comes next.
    #[tactic(auto, using(crate::proofs::Peeked::is_first, crate::proofs::Peeked::is_empty))]
    pub fn op(&self, level: Level) -> Option<Op>
        ensures { result ≡ spec.op_at level self.now }
    {
        match self.peek(0) {
            Some(first) => match first.kind {
                TokenKind::Sign(sign) => op_of(level, sign),
                _ => None,
            },
            None => None,
        }
    }

    pub fn name(&mut self) -> Result<Text, Stop>
        ensures { Reads (spec.name self.old) result self.new }
    {
        match self.take() {
            Some(TokenKind::Name(text)) => Ok(text),
            _ => Err(Stop::NotAnExpression),
        }
    }
}
