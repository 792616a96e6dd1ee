//! Lines and words, with their columns counted by hand.
use crate::{Words, bare, first_line, split_line};

/// Whether the next word is this text at this column.
fn is_next(words: &mut Words, text: &[u8], column: u64) -> bool {
    match words.next() {
        Some(word) => word.text == text && word.column == column,
        None => false,
    }
}

#[test]
fn words_have_columns(rt: HostRuntime) {
    let mut words = Words::of(b"\t cp  bird ");
    assert!(rt; !words.is_empty());
    assert!(rt; is_next(&mut words, b"cp", 3));
    assert!(rt; is_next(&mut words, b"bird", 7));
    assert!(rt; words.is_empty() && words.next().is_none());
    assert_eq!(rt; words.missing(), 12);
}

fn is_bare(bytes: &[u8], line: &[u8]) -> bool {
    bare(bytes) == line
}

#[test]
fn one_return_is_dropped(rt: HostRuntime) {
    assert!(rt; is_bare(b"cp\r\r", b"cp\r") && is_bare(b"cp", b"cp") && is_bare(b"", b""));
}

fn begins(text: &[u8], line: &[u8], after: &[u8]) -> bool {
    let first = first_line(text);
    first.0 == line && first.1 == after
}

#[test]
fn a_first_line_loses_its_feed(rt: HostRuntime) {
    assert!(rt; begins(b"cp\r\nfold\n", b"cp", b"fold\n"));
    assert!(rt; begins(b"cp\r", b"cp", b""));
}

fn splits(bytes: &[u8], line: &[u8], later: &[u8]) -> bool {
    match split_line(bytes) {
        Some(cut) => cut.0 == line && cut.1 == later,
        None => false,
    }
}

#[test]
fn a_line_is_split_off_with_its_feed(rt: HostRuntime) {
    assert!(rt; splits(b"cp\r\nfold", b"cp\r\n", b"fold"));
    assert!(rt; split_line(b"fold").is_none());
}
