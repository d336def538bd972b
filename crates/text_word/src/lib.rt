// Whether a text is a word. Promised: exactly that.
#![tactic(auto)]

ghost use Rattle.std.specs.Prelude.{◌≡◌};
ghost use Rattle.text_word.specs.rules.Word.{is_word};

// Whether the text is the word, byte for byte.
pub fn is_word(text: &[u8], word: &[u8]) -> bool
    ensures { result ≡ is_word text.now word.now }
{
    text == word
}
