ghost use Rattle.std.specs.Prelude.{◌≡◌, [], ◌∷◌, ◌++◌, length, OnOk};

use crate::Token;
use iam_text::OutOfMemory;
use std::alloc::Global;
use std::collections::VecDeque;
use std::marker::Model;

/// The tokens of a text, in order. They are added at the end, and then taken from the front.
#[derive(Drop)]
pub struct Tokens {
    tokens: Vec<Token>,
}

impl Model for Tokens {
    ghost use Rattle.std.specs.Prelude.{List};
    ghost use Rattle.cel_tree.specs.declared.token.Token.{Token};

    ghost Value = { List Token };

    ghost view = { λ t. t.tokens.items };
}

impl Tokens {
    pub fn new(alloc: Global) -> Tokens
        ensures { result ≡ [] }
    {
        Tokens {
            tokens: Vec::new(alloc),
        }
    }

    pub fn push(&mut self, token: Token) -> Result<(), OutOfMemory>
        ensures { OnOk result (self.new ≡ self.old ++ token ∷ []) }
    {
        match self.tokens.push(token) {
            Ok(()) => Ok(()),
            Err(_) => Err(OutOfMemory),
        }
    }

    pub fn len(&self) -> usize
        ensures { result ≡ length self.now }
    {
        self.tokens.len()
    }

    pub fn as_slice(&self) -> &[Token]
        ensures { result.now ≡ self.now }
    {
        self.tokens.as_slice()
    }

    /// The same tokens, to be taken from the front.
    pub fn into_deque(self) -> VecDeque<Token>
        ensures { result.items ≡ self }
    {
        let Tokens { tokens } = self;
        VecDeque::from_vec(tokens)
    }
}
