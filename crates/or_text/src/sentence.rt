//! Sentences with values in them.
ghost use Rattle.std.specs.Prelude.{◌≡◌, ◌++◌};
ghost use Rattle.or_text.specs.Hexadecimal.{word_text};
ghost use Rattle.or_text.specs.Sentences.{part_text, sentence_text};

use crate::capital;

/// What stands between the words of a sentence.
#[derive(Clone, Copy)]
pub enum Part<'a> {
    /// Text as it stands.
    Text(&'a str),
    /// A number in decimal.
    Number(u64),
    /// Two numbers in decimal, ` to ` between them.
    Range { low: u64, high: u64 },
    /// An address in hexadecimal: eight digits, behind what exceeds 32 bits in decimal.
    Address(u64),
}

/// A value, and the words behind it.
#[derive(Clone, Copy)]
pub struct Clause<'a> {
    pub value: Part<'a>,
    pub words: &'a str,
}

const NO_CLAUSE: Clause<'static> = Clause {
    value: Part::Text(""),
    words: "",
};

/// A sentence: words, and at most four values with words behind each. It takes no memory.
#[derive(Clone, Copy)]
pub struct Sentence<'a> {
    pub words: &'a str,
    pub first: Clause<'a>,
    pub second: Clause<'a>,
    pub third: Clause<'a>,
    pub fourth: Clause<'a>,
}

impl<'a> Sentence<'a> {
    /// A sentence without values.
    #[tactic(auto, unfolding(crate::specs::Sentences::sentence_text))]
    pub fn plain(words: &'a str) -> Self
        ensures { sentence_text result ≡ words.now }
    {
        Sentence {
            words,
            first: NO_CLAUSE,
            second: NO_CLAUSE,
            third: NO_CLAUSE,
            fourth: NO_CLAUSE,
        }
    }

    /// A sentence with one value.
    #[tactic(auto, unfolding(crate::specs::Sentences::sentence_text))]
    pub fn one(words: &'a str, value: Part<'a>, behind: &'a str) -> Self
        ensures { sentence_text result ≡ words.now ++ part_text value.entry ++ behind.now }
    {
        let first = Clause {
            value,
            words: behind,
        };
        Sentence {
            words,
            first,
            second: NO_CLAUSE,
            third: NO_CLAUSE,
            fourth: NO_CLAUSE,
        }
    }

    /// A sentence with two values.
    #[tactic(auto, unfolding(crate::specs::Sentences::sentence_text))]
    pub fn two(
        words: &'a str,
        first: Part<'a>,
        then: &'a str,
        second: Part<'a>,
        behind: &'a str,
    ) -> Self
        ensures { sentence_text result ≡ words.now ++ part_text first.entry ++ then.now ++ part_text second.entry ++ behind.now }
    {
        let first = Clause {
            value: first,
            words: then,
        };
        let second = Clause {
            value: second,
            words: behind,
        };
        Sentence {
            words,
            first,
            second,
            third: NO_CLAUSE,
            fourth: NO_CLAUSE,
        }
    }

    /// A sentence with three values.
    #[tactic(auto, unfolding(crate::specs::Sentences::sentence_text))]
    pub fn three(
        words: &'a str,
        first: Part<'a>,
        then: &'a str,
        second: Part<'a>,
        and: &'a str,
        third: Part<'a>,
        behind: &'a str,
    ) -> Self
        ensures { sentence_text result ≡ words.now ++ part_text first.entry ++ then.now ++ part_text second.entry ++ and.now ++ part_text third.entry ++ behind.now }
    {
        let first = Clause {
            value: first,
            words: then,
        };
        let second = Clause {
            value: second,
            words: and,
        };
        let third = Clause {
            value: third,
            words: behind,
        };
        Sentence {
            words,
            first,
            second,
            third,
            fourth: NO_CLAUSE,
        }
    }

    /// A sentence that begins and ends with one of four values.
    #[tactic(auto, unfolding(crate::specs::Sentences::sentence_text))]
    pub fn four(
        first: Part<'a>,
        then: &'a str,
        second: Part<'a>,
        and: &'a str,
        third: Part<'a>,
        last: &'a str,
        fourth: Part<'a>,
    ) -> Self
        ensures { sentence_text result ≡ part_text first.entry ++ then.now ++ part_text second.entry ++ and.now ++ part_text third.entry ++ last.now ++ part_text fourth.entry }
    {
        let first = Clause {
            value: first,
            words: then,
        };
        let second = Clause {
            value: second,
            words: and,
        };
        let third = Clause {
            value: third,
            words: last,
        };
        let fourth = Clause {
            value: fourth,
            words: "",
        };
        Sentence {
            words: "",
            first,
            second,
            third,
            fourth,
        }
    }
}

/// A word as eight capital hexadecimal digits.
#[tactic(auto, unfolding(crate::specs::Hexadecimal::word_text))]
pub fn word_digits(n: u32) -> [u8; 8]
    ensures { result ≡ word_text n }
{
    [
        capital(n / 0x1000_0000),
        capital(n / 0x100_0000 % 16),
        capital(n / 0x10_0000 % 16),
        capital(n / 0x1_0000 % 16),
        capital(n / 0x1000 % 16),
        capital(n / 0x100 % 16),
        capital(n / 0x10 % 16),
        capital(n % 16),
    ]
}
