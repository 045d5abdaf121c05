ghost use Rattle.std.specs.Prelude.{◌≡◌, ◌+◌, ◌-◌, ◌^◌, ◌<◌, ◌≤◌, ◌∷◌, drop, length, option_map};
ghost use Rattle.std.specs.Option.{ForSome};
ghost use Rattle.std.specs.Option.{option_copied};
ghost use Rattle.ct_args.specs.Given.{options_from, last_word_of, given_by, value_at as value_by};
ghost use Rattle.ct_args.specs.Seen.{given_seen, value_seen, FitsIn};
ghost use Rattle.ct_args.specs.Spelling.{said_of};

use crate::option::CommandOption;
use crate::spelling::{Said, ValuePlace};
use ct_base::Name;

/// The value of an option: a text, and the number of the word that holds it.
#[derive(Clone, Copy)]
pub struct Value<'a> {
    pub word: u32,
    pub text: &'a [u8],
}

/// An option as it was given, or a word that is none. Words are numbered from 1.
#[derive(Clone, Copy)]
pub struct Given<'a> {
    /// The number of the word that names the option.
    pub word: u32,
    /// The option; `None` is a word that names none.
    pub option: Option<CommandOption>,
    /// Its value; `None` where the option takes none, or where no word follows.
    pub value: Option<Value<'a>>,
}

impl<'a> Given<'a> {
    /// Reads the option that begins behind the first `count` words.
    #[tactic(auto, using(crate::proofs::CutLemmas::end_grows, crate::proofs::CutLemmas::end_within))]
    pub fn behind(words: &'a [Name], count: usize) -> Given<'a>
        requires few { length words.now < 2 ^ 32 - 1 }
        requires within { count < length words.now }
        ensures cut { options_from (count + 1) (drop count words.now) ≡ given_seen result ∷ options_from (last_word_of (given_seen result) + 1) (drop (last_word_of (given_seen result)) words.now) }
        ensures grows { count < last_word_of (given_seen result) }
        ensures within { last_word_of (given_seen result) ≤ length words.now }
    {
        let text = words[count].bytes();
        Given::by(Said::by(text), count as u32 + 1, text, words.get(count + 1))
    }

    /// What the word with this number gives, by what it says and by the next word.
    fn by(said: Option<Said>, word: u32, text: &'a [u8], next: Option<&'a Name>) -> Given<'a>
        requires few { word < 2 ^ 32 - 1 }
        requires fits { ForSome said (λ s. FitsIn (length text.now) s.value) }
        ensures { given_seen result ≡ given_by said word text.now (option_copied next.entry) }
    {
        let Some(said) = said else {
            return Given {
                word,
                option: None,
                value: None,
            };
        };
        Given {
            word,
            option: Some(said.option),
            value: Value::at(said.value, word, text, next),
        }
    }

    /// The number of the last word that belongs to the option.
    pub fn end(&self) -> u32
        ensures { result ≡ last_word_of (given_seen self.now) }
    {
        match self.value {
            None => self.word,
            Some(value) => value.word,
        }
    }
}

impl<'a> Value<'a> {
    fn at(place: ValuePlace, word: u32, text: &'a [u8], next: Option<&'a Name>) -> Option<Value<'a>>
        requires few { word < 2 ^ 32 - 1 }
        requires fits { FitsIn (length text.now) place }
        ensures { option_map value_seen result ≡ value_by place word text.now (option_copied next.entry) }
    {
        match place {
            ValuePlace::Nowhere => None,
            ValuePlace::Behind(count) => Some(Value {
                word,
                text: &text[count..],
            }),
            ValuePlace::NextWord => match next {
                None => None,
                Some(other) => Some(Value {
                    word: word + 1,
                    text: other.bytes(),
                }),
            },
        }
    }
}
