// Each refusal by its number, beside the nearest call that is not refused.
use crate::boxes::{KEY, NONCE, issued_nonce};
use cipher::book::NonceBook;
use cipher::key::Key;
use cipher::nonce::BoxNonce;
use cipher::opening::Opening;
use cipher::sealing::{Sealing, TAG_LEN};
use digest::note::Note;
use engine::engine::Engine;
use engine::refusal::Refusal;
use gimli::plain::PlainEngine;
use gimli::standing::StandingEngine;
use gimli::three_share::ThreeShareEngine;
use reference::cipher::seal;
use std::process::Abort;
use std::test::Fail;

// The box of the empty message with no associated data.
const EMPTY_BOX: [u8; TAG_LEN] = [
    0x14, 0xda, 0x9b, 0xb7, 0x12, 0x0b, 0xf5, 0x8b, 0x98, 0x5a, 0x8e, 0x00, 0xfd, 0xeb, 0xa1, 0x5b,
];

// The number of a refusal, or 0 where nothing is refused.
fn number<T: Drop>(answer: Result<T, Refusal>) -> u8 {
    match answer {
        Ok(_) => 0,
        Err(refusal) => refusal.number(),
    }
}

#[test]
fn masks_of_47_and_49_bytes_are_refused(rt: HostRuntime) {
    let mask = [7; 49];
    assert_eq!(rt;
        number(ThreeShareEngine::new(&mask[0..47], &mask[0..48])),
        2
    );
    assert_eq!(rt;
        number(ThreeShareEngine::new(&mask[0..49], &mask[0..48])),
        2
    );
    assert_eq!(rt;
        number(ThreeShareEngine::new(&mask[0..48], &mask[0..47])),
        2
    );
    assert_eq!(rt;
        number(ThreeShareEngine::new(&mask[0..48], &mask[0..49])),
        2
    );
    assert_eq!(rt;
        number(ThreeShareEngine::new(&mask[0..48], &mask[0..48])),
        0
    );
}

fn check_places<E: Engine + Copy>(rt: &impl Abort, mut engine: E) -> Result<(), Fail> {
    assert_eq!(rt; number(engine.byte(48)), 1);
    assert_eq!(rt; number(engine.xor_byte(48, 1)), 1);
    assert_eq!(rt; number(engine.xor_byte(47, 6)), 0);
    assert_eq!(rt; engine.byte(47)?, 6);
    Ok(())
}

#[test]
fn place_48_is_refused(rt: HostRuntime) -> Result<(), Fail> {
    check_places(&rt, PlainEngine::new())?;
    check_places(&rt, StandingEngine::new())?;
    check_places(&rt, ThreeShareEngine::new(&[7; 48], &[9; 48])?)
}

#[test]
fn keys_names_and_nonces_of_other_lengths_are_refused(rt: HostRuntime) {
    let string = [7; 33];
    assert_eq!(rt; number(Key::new(&string[0..31])), 3);
    assert_eq!(rt; number(Key::new(&string[0..33])), 3);
    assert_eq!(rt; number(Key::new(&string[0..32])), 0);
    assert_eq!(rt; number(NonceBook::new(&string[0..11], 0)), 4);
    assert_eq!(rt; number(NonceBook::new(&string[0..13], 0)), 4);
    assert_eq!(rt; number(NonceBook::new(&string[0..12], 0)), 0);
    assert_eq!(rt; number(BoxNonce::new(&string[0..15])), 6);
    assert_eq!(rt; number(BoxNonce::new(&string[0..17])), 6);
    assert_eq!(rt; number(BoxNonce::new(&string[0..16])), 0);
}

#[test]
fn a_book_at_its_last_count_issues_once(rt: HostRuntime) -> Result<(), Fail> {
    let mut book = NonceBook::new(&NONCE[0..12], 4294967294)?;
    let nonce = book.issue()?;
    assert_eq!(rt; nonce.bytes()[12], 0xfe);
    assert_eq!(rt; nonce.bytes()[15], 0xff);
    assert_eq!(rt; number(book.issue()), 5);
    assert_eq!(rt; number(book.issue()), 5);
    assert_eq!(rt; book.count(), 4294967295);
    Ok(())
}

#[test]
fn a_short_write_leaves_buffer_and_sealing(rt: HostRuntime) -> Result<(), Fail> {
    let message = [9; 20];
    let mut text = [0xff; 20];
    let mut tag = [0; TAG_LEN];
    let key = Key::new(&KEY)?;
    let nonce = issued_nonce()?;
    let closed = Sealing::start(PlainEngine::new(), &key, nonce).close();
    let (closed, refused) = closed.write(&message, &mut text[0..19]);
    let left = text == [0xff; 20];
    let (closed, written) = closed.write(&message, &mut text);
    let _ = closed.finish(&mut tag);
    assert_eq!(rt; number(refused), 7);
    assert!(rt; left);
    assert_eq!(rt; written?, 20);
    let sealed = seal(rt.alloc(), &KEY, &NONCE, b"", &message)?;
    assert!(rt; sealed.strip_prefix(&text) == Some(&tag));
    Ok(())
}

// Opens a box with no associated data.
fn opened(sealed: &[u8], buffer: &mut [u8]) -> Result<usize, Refusal> {
    let key = Key::new(&KEY)?;
    let nonce = BoxNonce::new(&NONCE)?;
    let opening = Opening::start(PlainEngine::new(), &key, &nonce);
    let (_, answer) = opening.close().open(sealed, buffer);
    answer
}

#[test]
fn a_box_of_15_bytes_is_refused(rt: HostRuntime) -> Result<(), Fail> {
    let mut buffer = [0xff; 2];
    assert_eq!(rt; number(opened(&EMPTY_BOX[0..15], &mut buffer)), 8);
    assert_eq!(rt; opened(&EMPTY_BOX, &mut buffer)?, 0);
    assert!(rt; buffer == [0xff; 2]);
    Ok(())
}

#[test]
fn a_short_message_buffer_is_refused(rt: HostRuntime) {
    let mut buffer = [0xff; 3];
    assert_eq!(rt; number(opened(&[5; 18], &mut buffer[0..1])), 7);
    assert!(rt; buffer == [0xff; 3]);
    assert_eq!(rt; number(opened(&[5; 18], &mut buffer[0..2])), 9);
    assert!(rt; buffer == [0, 0, 0xff]);
}

#[test]
fn a_note_of_29_bytes_is_refused(rt: HostRuntime) {
    let text = [b'a'; 29];
    assert_eq!(rt; number(Note::new(&text[0..28])), 0);
    assert_eq!(rt; number(Note::new(&text)), 10);
}
