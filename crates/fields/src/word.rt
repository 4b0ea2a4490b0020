ghost use Rattle.std.specs.Prelude.{◌≡◌};
ghost use Rattle.std.specs.Option.{option_map};
ghost use Rattle.fields.specs.Words.{after_word, value_of};

// What follows the word that begins the line.
#[tactic(auto, using(crate::proofs::Words::strips))]
#[inline(always)]
pub fn past_word<'a>(line: &'a [u8], word: &[u8]) -> Option<&'a [u8]>
    ensures { option_map (λ x. x.now) result ≡ after_word line.now word.now }
{
    line.strip_prefix(word)
}

// What follows the key and "=" that begin the line.
#[inline(always)]
pub fn past_key<'a>(line: &'a [u8], key: &[u8]) -> Option<&'a [u8]>
    ensures { option_map (λ x. x.now) result ≡ value_of line.now key.now }
{
    past_word(past_word(line, key)?, b"=")
}
