ghost use Rattle.std.specs.Prelude.{◌≡◌, slice_index};
ghost use Rattle.std.specs.Char.{is_ascii_alphabetic};
ghost use Rattle.std.specs.List.{list_all};
ghost use Rattle.jac_value.specs.Names.{is_atom_byte, is_reserved, is_name};

/// Whether the bytes are a name: up to 64 letters, digits, `_` and `-`, beginning with a letter,
/// and none of the reserved words `this`, `viewer`, `true` and `false`.
pub fn is_name(word: &[u8]) -> bool
    ensures { result ≡ is_name word.now }
{
    word.len() <= 64 && begins_with_letter(word) && !is_reserved(word) && are_atom_bytes(word)
}

fn begins_with_letter(word: &[u8]) -> bool
    ensures { result ≡ is_ascii_alphabetic (slice_index word.now 0) }
{
    match word.first() {
        Some(first) => first.is_ascii_alphabetic(),
        None => false,
    }
}

fn is_reserved(word: &[u8]) -> bool
    ensures { result ≡ is_reserved word.now }
{
    word == b"this".as_slice()
        || word == b"viewer".as_slice()
        || word == b"true".as_slice()
        || word == b"false".as_slice()
}

/// Whether each byte is an ASCII letter or digit, `_` or `-`. It is true if there are no bytes.
pub fn are_atom_bytes(word: &[u8]) -> bool
    ensures { result ≡ list_all is_atom_byte word.now }
{
    word.iter().all(|byte| is_atom_byte(*byte))
}

fn is_atom_byte(byte: u8) -> bool
    ensures { result ≡ is_atom_byte byte }
{
    byte.is_ascii_alphanumeric() || byte == b'_' || byte == b'-'
}
