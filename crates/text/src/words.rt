// Words: where a byte stands in a text, what lies before and behind it, and lists of words that spaces part.
ghost use Rattle.std.specs.Prelude.{◌≡◌, ◌≤◌, length, take};
ghost use Rattle.text.specs.Words.{place_of, before_of, after_of, words_of, number_among, nth_of};

// The place of the first b in s, or the length of s. The last clause follows from the one before it.
pub fn place_of(b: u8, s: &[u8]) -> usize
    ensures place { result ≡ place_of b s.now }
    ensures in_bounds { result ≤ length s.now }
    ensures part_length { result ≡ length (take result s.now) }
{
    s.iter().position(|x| *x == b).unwrap_or(s.len())
}

// What stands before the first b, or all of s.
pub fn before<'a>(b: u8, s: &'a [u8]) -> &'a [u8]
    ensures { result.now ≡ before_of b s.now }
{
    &s[..place_of(b, s)]
}

// What follows the first b, or nothing.
pub fn after<'a>(b: u8, s: &'a [u8]) -> &'a [u8]
    ensures { result.now ≡ after_of b s.now }
{
    s.get(place_of(b, s) + 1..).unwrap_or(&[])
}

// The place of s among the words of a list, or how many there are.
pub fn word_number(s: &[u8], words: &[u8]) -> usize
    ensures { result ≡ number_among s.now (words_of words.now) }
{
    words.split(|b| *b == b' ').take_while(|w| s != *w).count()
}

// The nth of the words of a list, from 0, or the empty word.
pub fn nth_word<'a>(words: &'a [u8], n: usize) -> &'a [u8]
    ensures { result.now ≡ nth_of n (words_of words.now) }
{
    words.split(|b| *b == b' ').nth(n).unwrap_or(&[])
}
