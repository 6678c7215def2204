// A case: an argument of the program, words parted by single spaces. The first names the service, the others are its inputs: names of
// files, digits, the size of the buffer that is lent, calls. Between two spaces side by side is an empty word.
ghost use Rattle.std.specs.Prelude.{◌≡◌, ◌≤◌, ◌<◌, length};
ghost use Rattle.files.specs.Counts.{IsPrefixLen};

use rule_file::rule::RuleAnswer;
use std::rt::Files;
use text::number::Number;

// Where the part ends that begins at a place.
fn part_end(text: &[u8], separator: u8, start: usize) -> usize
    requires { start ≤ length text.now }
    ensures inside { (start ≤ result) × (result ≤ length text.now) }
{
    let mut i = start;
    while i < text.len() {
        if text[i] == separator {
            return i;
        }
        i += 1;
    }
    i
}

// A part of a text between separators, counted from 0; empty where there are fewer.
pub fn part(text: &[u8], separator: u8, number: usize) -> &[u8] {
    let mut start = 0;
    let mut left = number;
    while 0 < left {
        let end = part_end(text, separator, start);
        if end == text.len() {
            return &text[end..];
        }
        start = end + 1;
        left -= 1;
    }
    let end = part_end(text, separator, start);
    &text[start..end]
}

// A word of a case.
pub fn word(case: &[u8], number: usize) -> &[u8] {
    part(case, b' ', number)
}

fn space_count(byte: u8) -> usize
    ensures once { result ≤ 1 }
{
    if byte == b' ' { 1 } else { 0 }
}

// How many words a case has.
pub fn count(case: &[u8]) -> usize {
    let mut words = 1;
    let mut i = 0;
    while i < case.len() {
        words += space_count(case[i]);
        i += 1;
    }
    words
}

// Whether the case is one of this service.
pub fn names(case: &[u8], service: &[u8]) -> bool {
    text::search::same(word(case, 0), service)
}

// The bytes that a service is lent: dots, so that those that a call leaves are seen.
pub fn dots() -> [u8; 4096]
    ensures long { 4096 ≡ length result }
{
    [b'.'; 4096]
}

// How many of these to lend, from a word that is a number.
pub fn size(case: &[u8], number: usize, dots: &[u8]) -> usize
    ensures counts { IsPrefixLen result dots.now }
{
    let Number::Is(n) = text::number::read_number(word(case, number)) else {
        return 0;
    };
    if n <= dots.len() { n } else { dots.len() }
}

// The bytes of the file that a word names.
pub fn load<R: Files>(rt: &R, case: &[u8], number: usize, space: &mut [u8]) -> usize
    requires { 65536 < length space.old }
    ensures counts { IsPrefixLen result space.new }
{
    files::load(rt, word(case, number), space)
}

// The rule in the file that the second word names.
pub fn load_rule<R: Files>(rt: &R, case: &[u8]) -> RuleAnswer {
    let mut space = [0u8; 65537];
    let n = load(rt, case, 1, &mut space);
    rule_file::rule::read_rule(&space[..n])
}
