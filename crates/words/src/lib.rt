// The words of a line.
#![tactic(auto)]

ghost use Rattle.std.specs.Prelude.{ℕ, List, MatchOption};
ghost use Rattle.words.specs.Words.{WordsOf, WordsExist, WordsUnique, Listed, NumeralOf, NoNumeral};

// The words of a text that has four at most.
#[derive(Clone, Copy)]
pub enum FewWords<'a> {
    Blank,
    One(&'a str),
    Two(&'a str, &'a str),
    Three(&'a str, &'a str, &'a str),
    Four(&'a str, &'a str, &'a str, &'a str),
    // The text has more words than four.
    More,
}

// The words of the text, which stand between white space, if they are four at most.
pub fn up_to_four(text: &str) -> FewWords<'_>
    ensures { (ws : List (List ℕ)) × WordsOf text.now ws × Listed result ws }
{
    let mut words = text.split_whitespace();
    let Some(first) = words.next() else {
        return FewWords::Blank;
    };
    let Some(second) = words.next() else {
        return FewWords::One(first);
    };
    let Some(third) = words.next() else {
        return FewWords::Two(first, second);
    };
    let Some(fourth) = words.next() else {
        return FewWords::Three(first, second, third);
    };
    match words.next() {
        Some(_) => FewWords::More,
        None => FewWords::Four(first, second, third, fourth),
    }
}

// The number that a word writes, if it writes one below two to the 64th.
pub fn number_of(word: &str) -> Option<usize>
    ensures { MatchOption result (NoNumeral word.now) (λ n. NumeralOf word.now n) }
{
    word.parse::<usize>().ok()
}

// Each text has a list of words.
pub fn each_text_has_words()
    ensures { WordsExist }
{}

// A text has one list of words only.
pub fn words_are_unique()
    ensures { WordsUnique }
{}
