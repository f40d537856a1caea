//! First words that are misspelled.

use swim_script::Word;

static FIRST_WORDS: [Word; 12] = [
    Word::Open,
    Word::Wire,
    Word::Row,
    Word::Order,
    Word::Place,
    Word::Seed,
    Word::Tick,
    Word::Hear,
    Word::Join,
    Word::Remove,
    Word::Table,
    Word::Gap,
];

/// The first word that is meant by one in which two letters side by side are swapped.
pub fn meant_by(word: &[u8]) -> Option<Word> {
    for known in &FIRST_WORDS {
        if are_swapped(text_of(*known).as_bytes(), word) {
            return Some(*known);
        }
    }
    None
}

/// A first word, as it is written.
pub fn text_of(word: Word) -> &'static str {
    match word {
        Word::Open => "open",
        Word::Row => "row",
        Word::Order => "order",
        Word::Place => "place",
        Word::Seed => "seed",
        Word::Wire => "wire",
        Word::Tick => "tick",
        Word::Hear => "hear",
        Word::Join => "join",
        Word::Remove => "remove",
        Word::Table => "table",
        Word::Gap => "gap",
        Word::Answer => "=",
    }
}

/// Whether two words differ by two letters side by side, and else in nothing.
fn are_swapped(known: &[u8], word: &[u8]) -> bool {
    let mut same: usize = 0;
    for (left, right) in known.iter().zip(word) {
        if left != right {
            break;
        }
        same = same.saturating_add(1);
    }
    match (known.get(same..), word.get(same..)) {
        (Some([first, second, rest @ ..]), Some([left, right, others @ ..])) => {
            first == right && second == left && rest == others
        }
        _ => false,
    }
}
