// The words of a line, which blanks and tabs separate.
ghost use Rattle.std.specs.Prelude.{◌≡◌};
ghost use Rattle.script.specs.Words.{after_word, first_word};

// The first word of a text, which is empty where there is none, and what follows it.
pub fn first_word(text: &str) -> (&str, &str)
    ensures word { result.0.now ≡ first_word text.now }
    ensures rest { result.1.now ≡ after_word text.now }
{
    let text = text.trim_start_matches([' ', '\t']);
    match text.find([' ', '\t']) {
        Some(end) => text.split_at(end),
        None => (text, ""),
    }
}
