ghost use Rattle.std.specs.Prelude.{◌≡◌, [], ◌∷◌, ◌++◌, OnOk};
ghost use Rattle.std.specs.Fmt.{signed_decimal};
ghost use Rattle.std.specs.Char.{encode_utf8};
ghost use Rattle.cel_tree.specs.Spelling.{spelling};
ghost use Rattle.cel_shown.specs.Spelled.{escaped};

use cel_tree::Sign;
use iam_text::{OutOfMemory, Text};
use std::alloc::Global;
use std::marker::Model;

/// What is printed so far.
#[derive(Drop)]
pub struct Printer {
    alloc: Global,
    text: String,
}

impl Model for Printer {
    ghost use Rattle.std.specs.Prelude.{List, ℕ, string_bytes};

    ghost Value = { List ℕ };

    ghost view = { λ p. string_bytes p.text };
}

impl Printer {
    pub fn new(alloc: Global) -> Printer
        ensures { result ≡ [] }
    {
        Printer {
            alloc,
            text: String::new(alloc),
        }
    }

    pub fn into_text(self) -> Text
        ensures { result ≡ self }
    {
        Text::from(self.text)
    }

    pub fn put(&mut self, text: &str) -> Result<(), OutOfMemory>
        ensures { OnOk result (self.new ≡ self.old ++ text.now) }
    {
        self.text.push_str(text)?;
        Ok(())
    }

    pub fn sign(&mut self, sign: Sign) -> Result<(), OutOfMemory>
        ensures { OnOk result (self.new ≡ self.old ++ spelling sign) }
    {
        self.put(text_of(sign))
    }

    /// A sign with a blank on both sides.
    pub fn spaced(&mut self, sign: Sign) -> Result<(), OutOfMemory>
        ensures { OnOk result (self.new ≡ self.old ++ (32 ∷ (spelling sign ++ 32 ∷ []))) }
    {
        self.put(" ")?;
        self.sign(sign)?;
        self.put(" ")
    }

    /// A number with its minus.
    pub fn integer(&mut self, number: i64) -> Result<(), OutOfMemory>
        ensures { OnOk result (self.new ≡ self.old ++ signed_decimal number) }
    {
        let digits = number.to_string(self.alloc)?;
        self.put(digits.as_str())
    }

    fn escape(&mut self, c: char) -> Result<(), OutOfMemory>
        ensures { OnOk result (self.new ≡ self.old ++ escaped (encode_utf8 c)) }
    {
        match c {
            '"' => self.put("\\\""),
            '\\' => self.put("\\\\"),
            '\n' => self.put("\\n"),
            '\r' => self.put("\\r"),
            '\t' => self.put("\\t"),
            _ => {
                self.text.push(c)?;
                Ok(())
            }
        }
    }

    fn escape_all(&mut self, text: &str) -> Result<(), OutOfMemory>
        ensures { OnOk result (self.new ≡ self.old ++ escaped text.now) }
    {
        for c in text.chars() {
            self.escape(c)?;
        }
        Ok(())
    }

    /// A string between double quotes.
    pub fn quoted(&mut self, text: &str) -> Result<(), OutOfMemory>
        ensures { OnOk result (self.new ≡ self.old ++ 34 ∷ (escaped text.now ++ 34 ∷ [])) }
    {
        self.put("\"")?;
        self.escape_all(text)?;
        self.put("\"")
    }
}

fn text_of(sign: Sign) -> &'static str
    ensures { result.now ≡ spelling sign }
{
    match sign {
        Sign::Question => "?",
        Sign::Colon => ":",
        Sign::OrOr => "||",
        Sign::AndAnd => "&&",
        Sign::Less => "<",
        Sign::LessEqual => "<=",
        Sign::Greater => ">",
        Sign::GreaterEqual => ">=",
        Sign::EqualEqual => "==",
        Sign::NotEqual => "!=",
        Sign::In => "in",
        Sign::Plus => "+",
        Sign::Minus => "-",
        Sign::Star => "*",
        Sign::Slash => "/",
        Sign::Percent => "%",
        Sign::Bang => "!",
        Sign::Dot => ".",
        Sign::Comma => ",",
        Sign::OpenParenthesis => "(",
        Sign::CloseParenthesis => ")",
        Sign::OpenBracket => "[",
        Sign::CloseBracket => "]",
    }
}
