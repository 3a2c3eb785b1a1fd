//! Scripts of events, a line each.

ghost use Rattle.std.specs.Prelude.{◌≡◌, ◌<◌, ◌≢◌, ◌^◌, ℕ, List, IfNone, IfOk, IfSome, decimal};
ghost use Rattle.path_hub.specs.declared.event.Event.{Event};
ghost use Rattle.path_server.specs.Scripts.{BeginsWith, Says};

use crate::text_lines::{Line, split_once};
use hex::FromHexError;
use itoa::Buffer;
use path_hub::Event;
use std::alloc::{AllocError, Global};
use std::str;

// The number whose decimal digits these are.
fn read_number(digits: &[u8]) -> Option<u32>
    ensures some { IfSome result (λ number. digits.now ≡ decimal number) }
    ensures none { IfNone result ((number : ℕ) → number < 2 ^ 32 → digits.now ≢ decimal number) }
{
    let Ok(text) = str::from_utf8(digits) else {
        return None;
    };
    let Ok(number) = text.parse::<u32>() else {
        return None;
    };
    let mut buffer = Buffer::new();
    if buffer.format(number).as_bytes() == digits {
        Some(number)
    } else {
        None
    }
}

// The connection of a line, and what is said of it.
fn read_beginning(line: &[u8]) -> Option<(u32, &[u8])>
    ensures some { IfSome result (λ parts. BeginsWith line.now parts.0 parts.1.now) }
    ensures none { IfNone result ((conn : ℕ) (word : List ℕ) → ¬ BeginsWith line.now conn word) }
{
    let Some((digits, word)) = split_once(line, b' ') else {
        return None;
    };
    let Some(conn) = read_number(digits) else {
        return None;
    };
    Some((conn, word))
}

fn read_word(alloc: Global, conn: u32, word: &[u8]) -> Result<Option<Event>, AllocError>
    ensures some { IfOk result (λ found. IfSome found (λ event. Says conn word.now event)) }
    ensures none { IfOk result (λ found. IfNone found ((event : Event) → ¬ Says conn word.now event)) }
{
    if word == b"open".as_slice() {
        return Ok(Some(Event::Connect(conn)));
    }
    if word == b"close".as_slice() {
        return Ok(Some(Event::Disconnect(conn)));
    }
    match hex::decode(alloc, word) {
        Ok(piece) => Ok(Some(Event::Bytes(conn, piece))),
        Err(FromHexError::OutOfMemory) => Err(AllocError),
        Err(_) => Ok(None),
    }
}

impl Line for Event {
    ghost use Rattle.path_server.specs.Scripts.{Spells};

    ghost spells = { Spells };

    fn read_line(alloc: Global, line: &[u8]) -> Result<Option<Event>, AllocError> {
        match read_beginning(line) {
            Some((conn, word)) => read_word(alloc, conn, word),
            None => Ok(None),
        }
    }
}
