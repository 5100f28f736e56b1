//! The grammar of names.

ghost use Rattle.std.specs.Prelude.{◌≡◌, ◌≢◌, ◌≤◌, ◌<◌, ℕ, ◌↔◌, IsTrue, length, slice_index, EachIndex, List, ◌++◌, codes, MatchOption};
ghost use Rattle.policy_values.specs.Name.{IsHead, IsTail, IsComponent, IsPrefix, IsName};

/// Whether the bytes are a name.
pub fn is_name(bytes: &[u8]) -> bool
    ensures { IsTrue result ↔ IsName bytes.now }
{
    let mut rest = bytes;
    'words: loop {
        let (word, left) = split_word(rest);
        if !is_component(word) {
            return false;
        }
        if left.is_empty() {
            return true;
        }
        match after_separator(left) {
            None => return false,
            Some(next) => rest = next,
        }
    }
}

// The bytes of words in front, and the others.
fn split_word(bytes: &[u8]) -> (&[u8], &[u8])
    ensures { IsPrefix bytes.now result.0.now result.1.now }
{
    bytes.split_at(word_len(bytes))
}

// What stands behind two colons.
fn after_separator(bytes: &[u8]) -> Option<&[u8]>
    ensures { MatchOption result ((rest : List ℕ) → bytes.now ≢ codes "::" ++ rest)
        (λ rest. bytes.now ≡ codes "::" ++ rest.now) }
{
    match bytes {
        [b':', b':', rest @ ..] => Some(rest),
        _ => None,
    }
}

// How many bytes of words the bytes begin with.
fn word_len(bytes: &[u8]) -> usize
    ensures bound { result ≤ length bytes.now }
    ensures each { (k : ℕ) → k < result → IsTail (slice_index bytes.now k) }
    ensures end { result < length bytes.now → IsTail (slice_index bytes.now result) → ⊥ }
{
    for (i, b) in bytes.iter().enumerate() {
        if !is_tail(*b) {
            return i;
        }
    }
    bytes.len()
}

fn is_head(b: u8) -> bool
    ensures { IsTrue result ↔ IsHead b }
{
    b.is_ascii_lowercase() || b.is_ascii_uppercase() || b == b'_'
}

fn is_tail(b: u8) -> bool
    ensures { IsTrue result ↔ IsTail b }
{
    is_head(b) || b.is_ascii_digit()
}

fn is_component(word: &[u8]) -> bool
    requires { EachIndex word.now (λ k. IsTail (slice_index word.now k)) }
    ensures { IsTrue result ↔ IsComponent word.now }
{
    !word.is_empty() && is_head(word[0]) && word != b"__cedar".as_slice()
}
