ghost use Rattle.std.specs.Prelude.{◌≡◌};

use cel_lexer::CutFault;

/// What is wrong with a text, in the order in which it is looked for.
#[derive(Clone, Copy, Debug)]
pub enum SyntaxKind {
    /// More than 2,048 bytes.
    TooLong,
    /// What is no token stands at the offset.
    BadToken,
    /// A word that is kept for other uses, or `null`, stands at the offset.
    ReservedWord,
    /// More than 512 tokens.
    TooManyTokens,
    /// More than 24 brackets are open at once.
    TooDeep,
    /// The tokens are derived from no expression.
    NotAnExpression,
}

/// A fault of a text, at an offset in bytes. It is 0 where the fault is the whole text's.
#[derive(Clone, Copy, Debug)]
pub struct SyntaxFault {
    pub offset: u32,
    pub kind: SyntaxKind,
}

/// Why no tree is given.
#[derive(Clone, Copy, Debug)]
pub enum ReadStop {
    Syntax(SyntaxFault),
    OutOfMemory,
}

impl From<cel_lexer::Stop> for ReadStop {
    ghost use Rattle.std.specs.Prelude.{◌≡◌};
    ghost use Rattle.cel_syntax.specs.Stops.{of_cut};

    ghost from_gives = { λ stop answer. answer ≡ of_cut stop };

    fn from(stop: cel_lexer::Stop) -> ReadStop {
        match stop {
            cel_lexer::Stop::Fault(CutFault::BadToken(offset)) => {
                fault(offset, SyntaxKind::BadToken)
            }
            cel_lexer::Stop::Fault(CutFault::ReservedWord(offset)) => {
                fault(offset, SyntaxKind::ReservedWord)
            }
            cel_lexer::Stop::OutOfMemory => ReadStop::OutOfMemory,
        }
    }
}

impl From<cel_grammar::Stop> for ReadStop {
    ghost use Rattle.std.specs.Prelude.{◌≡◌};
    ghost use Rattle.cel_syntax.specs.Stops.{of_grammar};

    ghost from_gives = { λ stop answer. answer ≡ of_grammar stop };

    fn from(stop: cel_grammar::Stop) -> ReadStop {
        match stop {
            cel_grammar::Stop::NotAnExpression => fault(0, SyntaxKind::NotAnExpression),
            cel_grammar::Stop::OutOfMemory => ReadStop::OutOfMemory,
        }
    }
}

pub fn fault(offset: u32, kind: SyntaxKind) -> ReadStop
    ensures { result ≡ ReadStop.Syntax (record { offset = offset; kind = kind }) }
{
    ReadStop::Syntax(SyntaxFault { offset, kind })
}
