// Domains and the id of a customer.
ghost use Rattle.std.specs.Prelude.{◌≡◌, ◌↔◌, length, IsTrue};
ghost use Rattle.std.specs.List.{All};
ghost use Rattle.iam_names.specs.Domain.{parts_of, IsLabel, IsDomain, IsCustomer};

use crate::bytes::{all_label_bytes, all_letters_or_digits};
use crate::limits::{CUSTOMER_BYTES, LABEL_BYTES, NAME_BYTES};

/// How many parts stand between the dots of a text.
pub fn count_parts(text: &str) -> usize
    ensures { result ≡ length (parts_of text.now) }
{
    text.split('.').count()
}

fn is_label(label: &str) -> bool
    ensures { IsTrue result ↔ IsLabel label.now }
{
    let bytes = label.as_bytes();
    if bytes.is_empty() || bytes.len() > LABEL_BYTES {
        return false;
    }
    if bytes[0] == b'-' || bytes[bytes.len() - 1] == b'-' {
        return false;
    }
    all_label_bytes(bytes)
}

fn all_labels(text: &str) -> bool
    ensures { IsTrue result ↔ All IsLabel (parts_of text.now) }
{
    text.split('.').all(|label| is_label(label))
}

/// Whether a text is a domain.
pub fn is_domain(text: &str) -> bool
    ensures { IsTrue result ↔ IsDomain text.now }
{
    if text.len() > NAME_BYTES || count_parts(text) < 2 {
        return false;
    }
    all_labels(text)
}

/// Whether a text is the id of a customer of Cloud Identity.
pub fn is_customer(text: &str) -> bool
    ensures { IsTrue result ↔ IsCustomer text.now }
{
    let bytes = text.as_bytes();
    if bytes.is_empty() || bytes.len() > CUSTOMER_BYTES {
        return false;
    }
    all_letters_or_digits(bytes)
}
