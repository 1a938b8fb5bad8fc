// Etags: numbers of changes as base64 texts.
ghost use Rattle.std.specs.Prelude.{◌≡◌, length, IfOk};
ghost use Rattle.std.specs.Int.{w64, to_be_bytes};
ghost use Rattle.serde_json.specs.Data.{string};
ghost use Rattle.serde_json.specs.View.{view};
ghost use Rattle.iam_json_data.specs.Etag.{etag_text_of, IsEtagNumber};

use base64::engine::general_purpose::STANDARD;
use iam_text::OutOfMemory;
use serde_json::Value;
use std::alloc::Global;

/// The text of a number: RFC 4648's base64 of its eight big-endian bytes.
pub fn etag_text(number: u64) -> [u8; 12]
    ensures { result ≡ etag_text_of number }
{
    let mut text = [0u8; 12];
    let _ = STANDARD.encode_slice(&number.to_be_bytes(), &mut text);
    text
}

/// The text of a number as it stands in a body.
pub fn etag_value(alloc: Global, number: u64) -> Result<Value, OutOfMemory>
    ensures { IfOk result (λ v. view v ≡ string (etag_text_of number)) }
{
    let text = STANDARD.encode(alloc, &number.to_be_bytes())?;
    Ok(Value::String(text))
}

// The number of eight big-endian bytes.
fn number_of(bytes: &[u8]) -> u64
    requires { length bytes.now ≡ 8 }
    ensures { to_be_bytes w64 result ≡ bytes.now }
{
    let mut number = [0u8; 8];
    number.copy_from_slice(bytes);
    u64::from_be_bytes(number)
}

/// The number that has this text.
pub fn etag_number(text: &str) -> Option<u64>
    ensures { IsEtagNumber text.now result }
{
    let input = text.as_bytes();
    if input.len() != 12 {
        return None;
    }
    let mut bytes = [0u8; 9];
    match STANDARD.decode_slice_unchecked(input, &mut bytes) {
        Ok(len) => {
            if len == 8 {
                Some(number_of(&bytes[..8]))
            } else {
                None
            }
        }
        Err(_) => None,
    }
}
