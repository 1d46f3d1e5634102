// The words of a line, and the numbers that words are, as docs/FORMS.md sets them down.

#![tactic(auto)]

ghost use Rattle.std.specs.Prelude.{◌≡◌, ◌+◌, ◌≤◌, ◌^◌, min, length, drop};
ghost use Rattle.wording.specs.Words.{is_blank, is_dark, is_inner, span, uncommented, begun, first, after, same};
ghost use Rattle.wording.specs.Numbers.{number_of, narrowed, is_number, only_in};

// Why a word is no number of 32 bits: it is past them, or, which is worse, no number at all.
#[derive(Clone, Copy, PartialEq, Eq, PartialOrd, Ord)]
pub enum NumberError {
    TooLarge,
    NotANumber,
}

// Whether a word is a number, of whatever size.
// Stays: it is public, with a definition of its own.
pub fn is_number(operand: Result<u32, NumberError>) -> bool
    ensures { result ≡ is_number operand }
{
    operand != Err(NumberError::NotANumber)
}

// The number that a text is, as its only word.
#[tactic(auto, unfolding(crate::specs::Numbers::only_in))]
pub fn only(text: &[u8]) -> Result<u32, NumberError>
    ensures { result ≡ only_in text.now }
{
    if !word(behind(text)).is_empty() {
        return Err(NumberError::NotANumber);
    }
    number(word(text))
}

// The number that a word is.
#[tactic(auto, using(crate::proofs::Digits::number_none, crate::proofs::Digits::number_some, crate::proofs::Digits::number_on, crate::proofs::Digits::number_other, crate::proofs::Digits::number_ends, crate::proofs::Digits::number_capped))]
pub fn number(word: &[u8]) -> Result<u32, NumberError>
    ensures { result ≡ number_of word.now }
{
    if word.is_empty() {
        return Err(NumberError::NotANumber);
    }
    let mut value: u64 = 0;
    for b in word {
        if !b.is_ascii_digit() {
            return Err(NumberError::NotANumber);
        }
        value = capped(10 * value + u64::from(*b - b'0'));
    }
    narrow(value)
}

// 2^32 stands for every number past 32 bits, so that digits without end do not wrap.
pub fn capped(value: u64) -> u64
    ensures { result ≡ min value (2 ^ 32) }
{
    value.min(4294967296)
}

// A number as one of 32 bits, or too large.
pub fn narrow(value: u64) -> Result<u32, NumberError>
    ensures { result ≡ narrowed value }
{
    u32::try_from(value).map_err(|_| NumberError::TooLarge)
}

// A byte as a number of 64 bits.
pub fn wide(b: u8) -> u64
    ensures { result ≡ b }
{
    u64::from(b)
}

// The line before its comment.
pub fn uncomment(line: &[u8]) -> &[u8]
    ensures { result.now ≡ uncommented line.now }
{
    let n = line.iter().take_while(|b| **b != b'#').count();
    &line[..n]
}

// The first word, or nothing.
#[tactic(auto, unfolding(crate::specs::Words::first))]
pub fn word(text: &[u8]) -> &[u8]
    ensures { result.now ≡ first text.now }
{
    let begun = begun(text);
    &begun[..word_length(begun)]
}

// What stands after the first word.
#[tactic(auto, using(crate::proofs::Spans::part_on), unfolding(crate::specs::Words::after))]
pub fn behind(text: &[u8]) -> &[u8]
    ensures { result.now ≡ after text.now }
{
    let begun = begun(text);
    &begun[word_length(begun)..]
}

// The text from its first word on.
fn begun(text: &[u8]) -> &[u8]
    ensures { result.now ≡ begun text.now }
{
    let n = text.iter().take_while(|b| is_blank(**b)).count();
    &text[n..]
}

// The length of the word that a text begins with.
fn word_length(begun: &[u8]) -> usize
    ensures counted { result ≡ span is_dark begun.now }
    ensures within { result ≤ length begun.now }
{
    begun.iter().take_while(|b| !is_blank(**b)).count()
}

// Whether a byte is white space.
pub fn is_blank(b: u8) -> bool
    ensures { result ≡ is_blank b }
{
    matches!(b, b' ' | b'\t' | b'\r')
}

// Whether a word is that one.
// Stays: it is public, and says its answer by `same`, as the definitions of `calls` and `treetext` do; `==` stands in it.
#[tactic(auto, using(crate::proofs::Sames::same_bytes))]
pub fn is(word: &[u8], name: &[u8]) -> bool
    ensures { result ≡ same word.now name.now }
{
    word == name
}

// Where the line ends that starts at a place.
pub fn line_end(text: &[u8], at: usize) -> usize
    requires { at ≤ length text.now }
    ensures counted { result ≡ at + span is_inner (drop at text.now) }
    ensures within { result ≤ length text.now }
{
    at + text[at..].iter().take_while(|b| **b != b'\n').count()
}
