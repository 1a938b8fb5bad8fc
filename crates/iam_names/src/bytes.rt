// Which bytes may stand in the words that names are made of.
ghost use Rattle.std.specs.Prelude.{◌≡◌};
ghost use Rattle.std.specs.List.{list_all};
ghost use Rattle.iam_names.specs.Bytes.{is_digit, is_lower, is_upper, is_letter_or_digit, is_label_byte, is_local_byte, is_folder_display_byte, is_project_display_byte, is_role_byte};

fn is_digit(byte: u8) -> bool
    ensures { result ≡ is_digit byte }
{
    b'0' <= byte && byte <= b'9'
}

pub fn is_lower(byte: u8) -> bool
    ensures { result ≡ is_lower byte }
{
    b'a' <= byte && byte <= b'z'
}

fn is_upper(byte: u8) -> bool
    ensures { result ≡ is_upper byte }
{
    b'A' <= byte && byte <= b'Z'
}

pub fn is_letter_or_digit(byte: u8) -> bool
    ensures { result ≡ is_letter_or_digit byte }
{
    is_upper(byte) || is_lower(byte) || is_digit(byte)
}

fn is_label_byte(byte: u8) -> bool
    ensures { result ≡ is_label_byte byte }
{
    is_lower(byte) || is_digit(byte) || byte == b'-'
}

fn is_local_byte(byte: u8) -> bool
    ensures { result ≡ is_local_byte byte }
{
    is_letter_or_digit(byte)
        || byte == b'.'
        || byte == b'_'
        || byte == b'-'
        || byte == b'+'
        || byte == b'\''
}

fn is_folder_display_byte(byte: u8) -> bool
    ensures { result ≡ is_folder_display_byte byte }
{
    is_letter_or_digit(byte) || byte == b' ' || byte == b'-' || byte == b'_'
}

fn is_project_display_byte(byte: u8) -> bool
    ensures { result ≡ is_project_display_byte byte }
{
    is_letter_or_digit(byte)
        || byte == b' '
        || byte == b'-'
        || byte == b'\''
        || byte == b'"'
        || byte == b'!'
}

fn is_role_byte(byte: u8) -> bool
    ensures { result ≡ is_role_byte byte }
{
    is_letter_or_digit(byte) || byte == b'_' || byte == b'.'
}

pub fn all_digits(bytes: &[u8]) -> bool
    ensures { result ≡ list_all is_digit bytes.now }
{
    bytes.iter().all(|b| is_digit(*b))
}

pub fn all_letters_or_digits(bytes: &[u8]) -> bool
    ensures { result ≡ list_all is_letter_or_digit bytes.now }
{
    bytes.iter().all(|b| is_letter_or_digit(*b))
}

pub fn all_label_bytes(bytes: &[u8]) -> bool
    ensures { result ≡ list_all is_label_byte bytes.now }
{
    bytes.iter().all(|b| is_label_byte(*b))
}

pub fn all_local_bytes(bytes: &[u8]) -> bool
    ensures { result ≡ list_all is_local_byte bytes.now }
{
    bytes.iter().all(|b| is_local_byte(*b))
}

pub fn all_folder_display_bytes(bytes: &[u8]) -> bool
    ensures { result ≡ list_all is_folder_display_byte bytes.now }
{
    bytes.iter().all(|b| is_folder_display_byte(*b))
}

pub fn all_project_display_bytes(bytes: &[u8]) -> bool
    ensures { result ≡ list_all is_project_display_byte bytes.now }
{
    bytes.iter().all(|b| is_project_display_byte(*b))
}

pub fn all_role_bytes(bytes: &[u8]) -> bool
    ensures { result ≡ list_all is_role_byte bytes.now }
{
    bytes.iter().all(|b| is_role_byte(*b))
}
