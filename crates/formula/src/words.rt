// The bytes of a text: separators, comments, and what is left of the tokens.
ghost use Rattle.std.specs.Prelude.{◌≡◌, false, ◌∷◌, [], ◌+◌, ◌≤◌, length, drop};
ghost use Rattle.std.specs.List.{take_while};
ghost use Rattle.rules.specs.definitions.Limits.{text_most};
ghost use Rattle.rules.specs.definitions.Text.{separator, token_byte, uncommented, spelled};
ghost use Rattle.rules.specs.definitions.Reading.{word_cnf};

const SPACE: u8 = b' ';

const TAB: u8 = b'\t';

const RETURN: u8 = b'\r';

const LINE_FEED: u8 = b'\n';

const LETTER_C: u8 = b'c';

// Whether a byte is a space, tab, CR or LF.
pub fn is_separator(b: u8) -> bool
    ensures { result ≡ separator b }
{
    matches!(b, SPACE | TAB | RETURN | LINE_FEED)
}

// A token: its offset in the text, and its bytes.
#[derive(Clone, Copy)]
pub struct Token<'a> {
    pub at: u32,
    pub bytes: &'a [u8],
}

// The tokens that are left: their bytes, and the offset of these.
#[derive(Drop)]
pub struct Tokens<'a> {
    pub bytes: &'a [u8],
    pub at: u32,
    ghost within: { at + length bytes.now ≤ text_most },
}

// How many of the first bytes are separators.
// Kept beside token_bytes: one chain each, of a test and its opposite.
pub fn separators(bytes: &[u8]) -> usize
    ensures { result ≡ length (take_while separator bytes.now) }
{
    bytes.iter().take_while(|b| is_separator(**b)).count()
}

// How many of the first bytes are a token's.
pub fn token_bytes(bytes: &[u8]) -> usize
    ensures { result ≡ length (take_while token_byte bytes.now) }
{
    bytes.iter().take_while(|b| !is_separator(**b)).count()
}

// The place of the first token that is no comment, or the end.
pub fn body(text: &[u8]) -> usize
    ensures { (record { at = result; bytes = drop result text.now } ≡ uncommented false text.now 0) × (result ≤ length text.now) }
{
    let mut inside = false;
    for (at, b) in text.iter().enumerate() {
        if inside {
            inside = *b != LINE_FEED;
        } else if *b == LETTER_C {
            inside = true;
        } else if !is_separator(*b) {
            return at;
        }
    }
    text.len()
}

// Whether a token is this one letter.
// Kept beside is_cnf: one comparison each, and callers say what they look for.
#[tactic(auto, using(crate::proofs::TokenLaws::spelled_same))]
pub fn is_letter(word: &[u8], letter: u8) -> bool
    ensures { result ≡ spelled (letter ∷ []) word.now }
{
    word == [letter].as_slice()
}

// Whether a token is `cnf`.
#[tactic(auto, using(crate::proofs::TokenLaws::spelled_same))]
pub fn is_cnf(word: &[u8]) -> bool
    ensures { result ≡ spelled word_cnf word.now }
{
    word == b"cnf".as_slice()
}
