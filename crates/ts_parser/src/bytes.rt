ghost use Rattle.std.specs.Prelude.{◌≡◌, ◌≤◌, length, nat_lt};
ghost use Rattle.std.specs.List.{prefix_len, list_all, list_any};
ghost use Rattle.std.specs.Char.{is_ascii_digit as digit_is, is_ascii_alphabetic as ascii_is};
ghost use Rattle.ts_parser.specs.Letters.{is_word_letter as letter_is, is_word_byte as inner_is};
ghost use Rattle.ts_parser.specs.Letters.{begins_with as front_is};
ghost use Rattle.ts_parser.specs.NumberForms.{is_sign as sign_is, is_free as free_is, groups_len as groups_are};
ghost use Rattle.ts_parser.specs.Rows.{begins_piece};
ghost use Rattle.ts_parser.specs.WordForms.{links_len as links_are, begins_link as link_is, run_len as run_is};

/// Whether a byte is an ASCII letter, or belongs to a letter past ASCII.
pub fn is_word_letter(c: u8) -> bool
    ensures { result ≡ letter_is c }
{
    c.is_ascii_alphabetic() || c > 127
}

/// Whether a byte belongs to a letter or is a digit.
pub fn is_word_byte(c: u8) -> bool
    ensures { result ≡ inner_is c }
{
    is_word_letter(c) || c.is_ascii_digit()
}

/// Whether a byte is `+` or `-`.
pub fn is_sign(c: u8) -> bool
    ensures { result ≡ sign_is c }
{
    c == b'+' || c == b'-'
}

/// Whether neither a letter nor a digit is before a place.
pub fn is_free(before: Option<u8>) -> bool
    ensures { result ≡ free_is before }
{
    match before {
        Some(c) => !is_word_byte(c),
        None => true,
    }
}

/// Whether a digit is at the front.
#[tactic(auto, using(crate::proofs::ByteTests::piece_begins))]
pub fn begins_with_digit(u: &[u8]) -> bool
    ensures byte { result ≡ front_is digit_is u.now }
    ensures group { result ≡ begins_piece digit_is digit_is u.now }
{
    match u.first() {
        Some(c) => c.is_ascii_digit(),
        None => false,
    }
}

/// Whether a letter or a digit is at the front.
pub fn begins_with_word_byte(u: &[u8]) -> bool
    ensures { result ≡ front_is inner_is u.now }
{
    match u.first() {
        Some(c) => is_word_byte(*c),
        None => false,
    }
}

/// Whether all bytes are digits.
pub fn all_digits(w: &[u8]) -> bool
    ensures { result ≡ list_all digit_is w.now }
{
    w.iter().all(|c| c.is_ascii_digit())
}

/// Whether some byte is a digit.
pub fn any_digit(w: &[u8]) -> bool
    ensures { result ≡ list_any digit_is w.now }
{
    w.iter().any(|c| c.is_ascii_digit())
}

/// Whether all bytes are ASCII letters.
pub fn all_ascii_letters(w: &[u8]) -> bool
    ensures { result ≡ list_all ascii_is w.now }
{
    w.iter().all(|c| c.is_ascii_alphabetic())
}

/// Whether some byte belongs to a letter.
pub fn any_word_letter(w: &[u8]) -> bool
    ensures { result ≡ list_any letter_is w.now }
{
    w.iter().any(|c| is_word_letter(*c))
}

/// Whether some byte is of a character past ASCII.
pub fn any_wide(w: &[u8]) -> bool
    ensures { result ≡ list_any (nat_lt 127) w.now }
{
    w.iter().any(|c| *c > 127)
}

/// How many digits are at the front.
pub fn digits_len(u: &[u8]) -> usize
    ensures value { result ≡ prefix_len digit_is u.now }
    ensures within { result ≤ length u.now }
{
    u.iter().take_while(|c| c.is_ascii_digit()).count()
}

/// How many letters and digits are at the front, in bytes.
pub fn run_len(u: &[u8]) -> usize
    ensures value { result ≡ run_is u.now }
    ensures within { result ≤ length u.now }
{
    u.iter().take_while(|c| is_word_byte(**c)).count()
}

/// Whether a run with a letter is at the front.
pub fn begins_link(u: &[u8]) -> bool
    ensures { result ≡ link_is u.now }
{
    any_word_letter(&u[..run_len(u)])
}

/// How long the groups of digits are that are at the front, with dots between them.
pub fn groups_len(u: &[u8]) -> usize
    ensures value { result ≡ groups_are u.now }
    ensures within { result ≤ length u.now }
{
    let mut n = 0;
    while n < u.len()
        && (u[n].is_ascii_digit() || (u[n] == b'.' && begins_with_digit(&u[n + 1..])))
    {
        n += 1;
    }
    n
}

/// How long the hyphen word is that has begun with a link, whose run has `run` bytes.
pub fn links_len(u: &[u8], run: usize) -> usize
    requires { run ≡ run_is u.now }
    ensures value { result ≡ links_are u.now }
    ensures within { result ≤ length u.now }
{
    let mut n = run;
    while n < u.len() && (is_word_byte(u[n]) || (u[n] == b'-' && begins_link(&u[n + 1..]))) {
        n += 1;
    }
    n
}
