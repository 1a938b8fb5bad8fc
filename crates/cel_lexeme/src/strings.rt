ghost use Rattle.std.specs.Prelude.{◌≡◌, ◌<◌, ◌≤◌, ◌+◌, ◌++◌, ◌^◌, length, slice_index, drop, IfOk, IfSome, OnOk, IsUtf8, true};
ghost use Rattle.cel_lexeme.specs.Lexeme as spec;
ghost use Rattle.cel_lexeme.specs.Front as front;
ghost use lib.Utf8.{scalar};

use crate::Lexeme;
use crate::bytes::{byte, text};
use crate::escapes::escape_at;
use cel_tree::TokenKind;
use iam_text::{List, OutOfMemory};
use std::alloc::Global;

/// How a string is written: between single or tripled quotes, raw or with escapes.
#[derive(Clone, Copy)]
pub struct StringForm {
    pub quote: u8,
    pub long: bool,
    pub raw: bool,
}

/// One item of a string: a byte that stands for itself, or an escape, so many bytes behind its backslash.
#[derive(Clone, Copy)]
pub enum Item {
    Byte(u8),
    Code(u64, usize),
}

/// What stands behind a string's opening quotes, decoded, and how many bytes it takes with its closing quotes.
#[derive(Drop)]
pub struct Body {
    pub value: List<u8>,
    /// Each numeric escape is a Unicode scalar value.
    pub sound: bool,
    pub len: usize,
}

fn quotes_len(form: StringForm) -> usize
    ensures value { result ≡ length (spec.quotes form) }
    ensures within { (0 < result) × (result ≤ 3) }
{
    if form.long { 3 } else { 1 }
}

fn closes(form: StringForm, z: &[u8]) -> bool
    ensures value { result ≡ spec.closes form z.now }
    ensures within { 0 < form.quote → result ≡ true → length (spec.quotes form) ≤ length z.now }
{
    let short = byte(z, 0) == form.quote;
    if !form.long {
        return short;
    }
    short && byte(z, 1) == form.quote && byte(z, 2) == form.quote
}

fn may_stand(form: StringForm, b: u8) -> bool
    ensures { result ≡ spec.may_stand form b }
{
    (form.raw || b != b'\\') && (form.long || !(b == b'\n' || b == b'\r'))
}

fn item_len(item: Item) -> usize
    requires { front.item_len item < 2 ^ 64 }
    ensures value { result ≡ front.item_len item }
    ensures some { 0 < result }
{
    match item {
        Item::Byte(_) => 1,
        Item::Code(_, len) => len + 1,
    }
}

fn item_at(form: StringForm, b: u8, z: &[u8]) -> Option<Item>
    ensures value { result ≡ front.item_at form b z.now }
    ensures within { IfSome result (λ item. front.item_len item ≤ length z.now + 1) }
{
    if b == b'\\' && !form.raw {
        let (code, len) = escape_at(z)?;
        return Some(Item::Code(code, len));
    }
    if may_stand(form, b) {
        Some(Item::Byte(b))
    } else {
        None
    }
}

/// Puts an item's bytes at the end, and says whether it is sound.
fn append(value: &mut List<u8>, item: Item) -> Result<bool, OutOfMemory>
    ensures sound { IfOk result (λ sound. sound ≡ front.item_sound item) }
    ensures value { OnOk result (value.new ≡ value.old ++ front.item_bytes item) }
{
    match item {
        Item::Byte(b) => {
            value.push(b)?;
            Ok(true)
        }
        Item::Code(code, _) => append_code(value, code),
    }
}

fn append_code(value: &mut List<u8>, code: u64) -> Result<bool, OutOfMemory>
    ensures sound { IfOk result (λ sound. sound ≡ scalar code) }
    ensures value { OnOk result (value.new ≡ value.old ++ spec.utf8 code) }
{
    if code > 0x10_FFFF {
        return Ok(false);
    }
    let Some(c) = char::from_u32(code as u32) else {
        return Ok(false);
    };
    let mut buffer = [0u8; 4];
    value.push_all(c.encode_utf8(&mut buffer).as_bytes())?;
    Ok(true)
}

fn body_at(alloc: Global, form: StringForm, z: &[u8]) -> Result<Option<Body>, OutOfMemory>
    requires quote { 0 < form.quote }
    ensures value { IfOk result (λ found. found ≡ front.body_at form z.now) }
    ensures within { IfOk result (λ found. IfSome found (λ body. body.len ≤ length z.now)) }
{
    let mut value = List::new(alloc);
    let mut sound = true;
    let mut rest = z;
    while let [b, more @ ..] = rest {
        if closes(form, rest) {
            let len = z.len() - rest.len() + quotes_len(form);
            return Ok(Some(Body { value, sound, len }));
        }
        let Some(item) = item_at(form, *b, more) else {
            return Ok(None);
        };
        sound &= append(&mut value, item)?;
        rest = &rest[item_len(item)..];
    }
    Ok(None)
}

fn string_lexeme(alloc: Global, body: &Body) -> Result<Lexeme, OutOfMemory>
    requires { IsUtf8 body.now.value }
    ensures { IfOk result (λ lexeme. lexeme ≡ spec.string_lexeme body.now.sound body.now.value) }
{
    if body.sound {
        Ok(Lexeme::Token(TokenKind::Str(text(alloc, body.value.as_slice())?)))
    } else {
        Ok(Lexeme::Bad)
    }
}

/// The string of one form at its opening quotes.
fn form_at(
    alloc: Global,
    form: StringForm,
    z: &[u8],
) -> Result<Option<(Lexeme, usize)>, OutOfMemory>
    requires quote { spec.is_quote form.quote ≡ true }
    requires opened { length (spec.quotes form) ≤ length z.now }
    requires utf8 { IsUtf8 (drop (length (spec.quotes form)) z.now) }
    ensures value { IfOk result (λ found. found ≡ front.form_at form z.now) }
    ensures within { IfOk result (λ found. IfSome found (λ string. string.1 ≤ length z.now)) }
{
    let start = quotes_len(form);
    let Some(body) = body_at(alloc, form, &z[start..])? else {
        return Ok(None);
    };
    let lexeme = string_lexeme(alloc, &body)?;
    Ok(Some((lexeme, start + body.len)))
}

/// The string at a quote. The long form is tried first, since two quotes alone are an empty string.
#[tactic(auto, unfolding(crate::specs::Front::string_at))]
pub fn string_at(alloc: Global, raw: bool, z: &[u8]) -> Result<Option<(Lexeme, usize)>, OutOfMemory>
    requires quote { spec.is_quote (slice_index z.now 0) ≡ true }
    requires utf8 { IsUtf8 z.now }
    ensures value { IfOk result (λ found. found ≡ front.string_at raw z.now) }
    ensures within { IfOk result (λ found. IfSome found (λ string. string.1 ≤ length z.now)) }
{
    let quote = byte(z, 0);
    let long = StringForm {
        quote,
        long: true,
        raw,
    };
    if closes(long, z) {
        if let Some(found) = form_at(alloc, long, z)? {
            return Ok(Some(found));
        }
    }
    let short = StringForm {
        quote,
        long: false,
        raw,
    };
    form_at(alloc, short, z)
}
