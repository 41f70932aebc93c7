// Cutting a text into lines, and a line into words.
ghost use Rattle.ksi_schedule.specs.Reading.{IsCut, HasLine, HasOne, HasTwo, HasThree, HasFour, HasFive, words_left};

use memchr::memchr;

const SPACE: u8 = b' ';

// What stands before the first mark, and what follows it.
pub(crate) fn cut(mark: u8, bytes: &[u8]) -> (&[u8], Option<&[u8]>)
    ensures { IsCut mark bytes.now result }
{
    match memchr(mark, bytes) {
        Some(place) => {
            let (before, rest) = bytes.split_at(place);
            let (_, after) = rest.split_at(1);
            (before, Some(after))
        }
        None => (bytes, None),
    }
}

// The next line, and the text behind it.
pub(crate) fn next_line(text: &[u8]) -> Option<(&[u8], &[u8])>
    ensures { HasLine text.now result }
{
    if text.is_empty() {
        return None;
    }
    match cut(b'\n', text) {
        (line, Some(others)) => Some((line, others)),
        (line, None) => Some((line, &[])),
    }
}

// The words that are left of a line.
pub(crate) type Words<'a> = Option<&'a [u8]>;

pub(crate) fn one(words: Words<'_>) -> Option<&[u8]>
    ensures { HasOne (words_left words.entry) result }
{
    let Some(words) = words else { return None };
    let (first, others) = cut(SPACE, words);
    match others {
        None => Some(first),
        Some(_) => None,
    }
}

pub(crate) fn two(words: Words<'_>) -> Option<(&[u8], &[u8])>
    ensures { HasTwo (words_left words.entry) result }
{
    let Some(words) = words else { return None };
    let (first, others) = cut(SPACE, words);
    let Some(second) = one(others) else {
        return None
    };
    Some((first, second))
}

pub(crate) fn three(words: Words<'_>) -> Option<(&[u8], &[u8], &[u8])>
    ensures { HasThree (words_left words.entry) result }
{
    let Some(words) = words else { return None };
    let (first, others) = cut(SPACE, words);
    let Some((second, third)) = two(others) else {
        return None
    };
    Some((first, second, third))
}

pub(crate) fn four(words: Words<'_>) -> Option<(&[u8], &[u8], &[u8], &[u8])>
    ensures { HasFour (words_left words.entry) result }
{
    let Some(words) = words else { return None };
    let (first, others) = cut(SPACE, words);
    let Some((second, third, fourth)) = three(others) else {
        return None
    };
    Some((first, second, third, fourth))
}

pub(crate) fn five(words: Words<'_>) -> Option<(&[u8], &[u8], &[u8], &[u8], &[u8])>
    ensures { HasFive (words_left words.entry) result }
{
    let Some(words) = words else { return None };
    let (first, others) = cut(SPACE, words);
    let Some((second, third, fourth, fifth)) = four(others) else {
        return None
    };
    Some((first, second, third, fourth, fifth))
}
