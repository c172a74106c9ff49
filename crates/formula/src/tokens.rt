// The tokens of a text, one after the other.
ghost use Rattle.std.specs.Iterator.{YieldsFirstBy, item_count};
ghost use Rattle.formula.specs.Tokens.{left};

use crate::words::{Token, Tokens, separators, token_bytes};

impl<'a> Iterator for Tokens<'a> {
    type Item = Token<'a>;

    ghost next_gives = { YieldsFirstBy (λ item. record { at = item.at; bytes = item.bytes.now }) left };

    ghost remaining = { item_count left };

    // The next token's offset and bytes; what is left is behind it.
    #[tactic(auto, using(crate::proofs::TokenLaws::next_none, crate::proofs::TokenLaws::next_some))]
    fn next(&mut self) -> Option<Token<'a>> {
        let (spaces, bytes) = self.bytes.split_at(separators(self.bytes));
        if bytes.is_empty() {
            return None;
        }
        let at = self.at + spaces.len() as u32;
        let (word, bytes) = bytes.split_at(token_bytes(bytes));
        self.bytes = bytes;
        self.at = at + word.len() as u32;
        Some(Token { at, bytes: word })
    }
}
