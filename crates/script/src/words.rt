// The words of a line, and what they write.
ghost use Rattle.std.specs.Prelude.{◌≡◌, ℕ, ◌+◌, ◌*◌, ◌<◌, List, [], length, Decides, Option, MatchOption};
ghost use Rattle.script.specs.Words.{trimmed, word, rest, Numbered, Numbers, hex_bytes, HexWord};
ghost use Rattle.std.specs.Str.Parse.{AllDigits};
ghost use Rattle.std.specs.Char.{digit_value};

// A text from its first byte that is no space on.
fn trimmed(text: &[u8]) -> &[u8]
    ensures { result.now ≡ trimmed text.now }
{
    let mut left = text;
    while let [b' ', rest @ ..] = left {
        left = rest;
    }
    left
}

// The first word of a text, and what stands after it.
pub(crate) fn split_word(text: &[u8]) -> (&[u8], &[u8])
    ensures word { result.0.now ≡ word text.now }
    ensures rest { result.1.now ≡ rest text.now }
{
    let text = trimmed(text);
    let end = text.iter().position(|c| *c == b' ').unwrap_or(text.len());
    text.split_at(end)
}

// The number that a word writes.
// Digit by digit: the library's `parse` takes a sign, which no number of a script has.
fn number(word: &[u8]) -> Option<u16>
    ensures { MatchOption result ((n : ℕ) → Numbered word.now n → ⊥) (λ n. Numbered word.now n) }
{
    if word.is_empty() {
        return None;
    }
    let mut n: u16 = 0;
    for c in word {
        if !c.is_ascii_digit() {
            return None;
        }
        let more = u32::from(n) * 10 + u32::from(*c - b'0');
        n = u16::try_from(more).ok()?;
    }
    Some(n)
}

// Whether no word stands in a text.
pub(crate) fn is_blank(text: &[u8]) -> bool
    ensures { Decides result (word text.now ≡ []) }
{
    let (word, _) = split_word(text);
    word.is_empty()
}

// The numbers that the words of a text write, if there are just N and each is a number.
// A loop over the places, and no `from_fn`: it ends at the first word that is no number.
pub(crate) fn numbers<const N: usize>(text: &[u8]) -> Option<[u16; N]>
    ensures { MatchOption result ((ns : List ℕ) → length ns ≡ N → Numbers text.now ns → ⊥) (λ ns. (length ns ≡ N) × Numbers text.now ns) }
{
    let mut out = [0; N];
    let mut left = text;
    for n in &mut out {
        let (word, rest) = split_word(left);
        *n = number(word)?;
        left = rest;
    }
    if is_blank(left) { Some(out) } else { None }
}

// Whether a word has hexadecimal digits alone.
fn is_hex(word: &[u8]) -> bool
    ensures { Decides result (AllDigits 16 word.now) }
{
    word.iter().all(|c| c.is_ascii_hexdigit())
}

// The value of a hexadecimal digit.
fn hex_value(digit: u8) -> u8
    requires { digit_value digit < 16 }
    ensures value { result ≡ digit_value digit }
    ensures small { result < 16 }
{
    char::from(digit).to_digit(16).unwrap() as u8
}

// The byte that two hexadecimal digits write.
fn hex_byte(high: u8, low: u8) -> u8
    requires first { digit_value high < 16 }
    requires second { digit_value low < 16 }
    ensures { result ≡ digit_value high * 16 + digit_value low }
{
    hex_value(high) * 16 + hex_value(low)
}

// The bytes that 32 hexadecimal digits write.
// A loop over the places: with `from_fn` the premise of its closure stayed to be shown.
fn hex_bytes(word: &[u8]) -> [u8; 16]
    requires digits { AllDigits 16 word.now }
    requires count { length word.now ≡ 32 }
    ensures { result ≡ hex_bytes word.now }
{
    let mut out = [0; 16];
    let mut left = word;
    for byte in &mut out {
        let [high, low, rest @ ..] = left else {
            unreachable!()
        };
        *byte = hex_byte(*high, *low);
        left = rest;
    }
    out
}

// What a word of hexadecimal digits writes: 16 bytes, or another number of them.
pub(crate) fn hex_word(word: &[u8]) -> Option<Option<[u8; 16]>>
    ensures { MatchOption result ((bytes : Option (List ℕ)) → HexWord word.now bytes → ⊥) (λ bytes. HexWord word.now bytes) }
{
    if word.is_empty() || word.len() % 2 != 0 || !is_hex(word) {
        return None;
    }
    if word.len() == 32 {
        Some(Some(hex_bytes(word)))
    } else {
        Some(None)
    }
}
