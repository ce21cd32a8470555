ghost use Rattle.std.specs.Prelude.{◌≡◌};
ghost use Rattle.std.specs.List.{list_any};
ghost use Rattle.ub_table.specs.Name as spec;

/// The words of the language. Those of an INSERT come first, since the longest scripts are made of them.
const KEYWORDS: [&str; 22] = [
    "INSERT", "INTO", "VALUES", "SELECT", "EXPLAIN", "FROM", "WHERE", "AND", "OR", "NOT",
    "BETWEEN", "GROUP", "ORDER", "BY", "ASC", "DESC", "LIMIT", "COUNT", "SUM", "MIN", "MAX",
    "DELETE",
];

/// Whether the text is a word of the language, in any mix of upper and lower case.
#[tactic(auto, unfolding(crate::specs::Name::is_keyword, crate::specs::Name::keywords))]
pub fn is_keyword(text: &[u8]) -> bool
    ensures { result ≡ spec.is_keyword text.now }
{
    is_one_of(&KEYWORDS, text)
}

fn is_one_of(words: &[&str], text: &[u8]) -> bool
    ensures { result ≡ list_any (λ word. spec.is_word word.now text.now) words.now }
{
    words.iter().any(|word| is_word(word.as_bytes(), text))
}

fn is_word(word: &[u8], text: &[u8]) -> bool
    ensures { result ≡ spec.is_word word.now text.now }
{
    word.eq_ignore_ascii_case(text)
}
