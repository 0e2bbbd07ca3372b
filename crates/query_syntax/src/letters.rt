// Classes of characters, and texts that aren't words.
ghost use Rattle.std.specs.Prelude.{◌≡◌};
ghost use Rattle.query_syntax.specs.Letters.{is_blank, is_special, is_sign, is_digit, is_word_byte};
ghost use Rattle.query_syntax.specs.Letters.{is_bound_byte, is_quoted_byte, is_just, is_operator};

pub fn is_blank(c: char) -> bool
    ensures { result ≡ is_blank c }
{
    c == ' ' || c == '\t' || c == '\n' || c == '\r'
}

pub fn is_sign(c: char) -> bool
    ensures { result ≡ is_sign c }
{
    c == '+' || c == '-'
}

pub fn is_digit(c: char) -> bool
    ensures { result ≡ is_digit c }
{
    c.is_ascii_digit()
}

#[tactic(auto, unfolding(crate::specs::Letters::is_special))]
fn is_special(c: char) -> bool
    ensures { result ≡ is_special c }
{
    c == '!'
        || c == '('
        || c == ')'
        || c == ':'
        || c == '^'
        || c == '['
        || c == ']'
        || c == '"'
        || c == '{'
        || c == '}'
        || c == '~'
        || c == '*'
        || c == '?'
        || c == '\\'
        || c == '/'
}

pub fn is_word_letter(c: char) -> bool
    ensures { result ≡ is_word_byte c }
{
    !(is_blank(c) || is_special(c))
}

pub fn is_bound_letter(c: char) -> bool
    ensures { result ≡ is_bound_byte c }
{
    !(is_blank(c) || c == ']' || c == '}' || c == '"' || c == '\\')
}

pub fn is_quoted_letter(c: char) -> bool
    ensures { result ≡ is_quoted_byte c }
{
    !(c == '"' || c == '\\')
}

pub fn is_just(wanted: &str, escapes: bool, text: &str) -> bool
    ensures { result ≡ is_just wanted.now escapes text.now }
{
    !escapes && text == wanted
}

#[tactic(auto, unfolding(crate::specs::Letters::is_operator))]
pub fn is_operator(escapes: bool, text: &str) -> bool
    ensures { result ≡ is_operator escapes text.now }
{
    is_just("AND", escapes, text)
        || is_just("OR", escapes, text)
        || is_just("NOT", escapes, text)
        || is_just("&&", escapes, text)
        || is_just("||", escapes, text)
}
