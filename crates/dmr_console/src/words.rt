//! The words of a line, and their numbers.

ghost use Rattle.std.specs.Prelude.{◌≡◌, ◌≤◌, ◌∷◌, [], MatchOption, IfSome};
ghost use Rattle.dmr_console.specs.Words.{short_number_within as number_of_word, words_of_line};

/// The most digits of a number.
const MOST_DIGITS: usize = 8;

/// The first word of a line, and the octets after it. `None` if the line has no word.
pub fn first_word(line: &[u8]) -> Option<(&[u8], &[u8])>
    ensures { MatchOption result (words_of_line line.now ≡ [])
        (λ parts. words_of_line line.now ≡ parts.0.now ∷ words_of_line parts.1.now) }
{
    let begin = line.iter().position(|octet| *octet != b' ')?;
    let rest = &line[begin..];
    let end = rest.iter().position(|octet| *octet == b' ');
    Some(rest.split_at(end.unwrap_or(rest.len())))
}

/// The number of a word: 1 to 8 decimal digits, from `least` to `most`; leading zeros are allowed. `None` if the word
/// is not such a number.
pub fn number_in(least: u32, most: u32, word: &[u8]) -> Option<u32>
    ensures value { result ≡ number_of_word least most word.now }
    ensures least { IfSome result (λ number. least ≤ number) }
    ensures most { IfSome result (λ number. number ≤ most) }
{
    if word.is_empty() || word.len() > MOST_DIGITS {
        return None;
    }
    let mut number = 0;
    for octet in word {
        if !octet.is_ascii_digit() {
            return None;
        }
        number = number * 10 + u32::from(*octet - b'0');
    }
    if least <= number && number <= most {
        Some(number)
    } else {
        None
    }
}
