//! What a reply must be, byte by byte.

/// The documents that a peer may have.
pub const TEXTS: usize = 3;

/// A text: so many times a letter, in quotes.
#[derive(Clone, Copy, PartialEq, Eq)]
pub struct Text {
    pub letter: u8,
    pub count: usize,
}

impl Text {
    /// Its bytes.
    pub fn length(&self) -> usize {
        self.count.saturating_add(2)
    }

    fn byte(&self, place: usize) -> u8 {
        if place == 0 || place > self.count {
            b'"'
        } else {
            self.letter
        }
    }
}

/// The first nine bytes of a reply that tells of refused memory.
pub const REFUSED: [u8; 9] = [0, 0, 0, 5, 21, 0, 0, 0, 1];

/// What a reply must be.
#[derive(Clone, Copy)]
pub enum Wanted {
    /// A status without a payload.
    Status(u8),
    /// One without a payload and with the number 0.
    Unnumbered(u8),
    /// That of a text that is put.
    Put,
    /// A text.
    Found(Text),
    /// The names of these documents.
    Names([Option<Text>; TEXTS]),
    /// A hit for the whole of each of these documents.
    Hits([Option<Text>; TEXTS]),
}

impl Wanted {
    /// How many bytes the reply has behind its first nine.
    pub fn payload(&self) -> usize {
        match self {
            Wanted::Status(_) | Wanted::Unnumbered(_) | Wanted::Put => 0,
            Wanted::Found(text) => text.length(),
            Wanted::Names(texts) => count_of(texts).saturating_mul(2).saturating_add(4),
            Wanted::Hits(texts) => {
                let mut sum = 4usize;
                'texts: for text in texts {
                    if let Some(text) = text {
                        sum = sum.saturating_add(hit_length(text));
                    }
                }
                sum
            }
        }
    }

    /// The first nine bytes of the reply.
    pub fn head(&self) -> [u8; 9] {
        let [a, b, c, d] = word_of(self.payload().saturating_add(5)).to_be_bytes();
        let (status, number) = match self {
            Wanted::Status(status) => (*status, 1),
            Wanted::Unnumbered(status) => (*status, 0),
            _ => (0, 1),
        };
        [a, b, c, d, status, 0, 0, 0, number]
    }

    /// Whether its request takes memory, so that a refusal may come instead.
    pub fn takes_memory(&self) -> bool {
        !matches!(self, Wanted::Status(_) | Wanted::Unnumbered(_))
    }

    /// A byte of the payload.
    pub fn byte(&self, place: usize) -> u8 {
        match self {
            Wanted::Status(_) | Wanted::Unnumbered(_) | Wanted::Put => 0,
            Wanted::Found(text) => text.byte(place),
            Wanted::Names(texts) => list_byte(texts, place, false),
            Wanted::Hits(texts) => list_byte(texts, place, true),
        }
    }
}

fn count_of(texts: &[Option<Text>; TEXTS]) -> usize {
    let mut count = 0usize;
    'texts: for text in texts {
        if text.is_some() {
            count = count.saturating_add(1);
        }
    }
    count
}

// A hit's name, its path `$` and its value, each with its length.
fn hit_length(text: &Text) -> usize {
    text.length().saturating_add(11)
}

// The byte at a place behind the status of a list of names or of hits.
fn list_byte(texts: &[Option<Text>; TEXTS], place: usize, has_hits: bool) -> u8 {
    let count = word_of(count_of(texts)).to_be_bytes();
    if let Some(byte) = count.get(place) {
        return *byte;
    }
    let mut left = place.saturating_sub(4);
    'texts: for (name, text) in texts.iter().enumerate() {
        if let Some(text) = text {
            let length = if has_hits { hit_length(text) } else { 2 };
            if left < length {
                return hit_byte(name, text, left);
            }
            left = left.saturating_sub(length);
        }
    }
    0
}

fn hit_byte(name: usize, text: &Text, place: usize) -> u8 {
    let [a, b, c, d] = word_of(text.length()).to_be_bytes();
    let digit = b'0'.wrapping_add(byte_of(name));
    let head = [1, digit, 0, 0, 0, 1, b'$', a, b, c, d];
    match head.get(place) {
        Some(byte) => *byte,
        None => text.byte(place.saturating_sub(11)),
    }
}

/// A number as four bytes hold it; the largest where they do not.
pub fn word_of(number: usize) -> u32 {
    u32::try_from(number).unwrap_or(u32::MAX)
}

/// A number as a byte holds it; the largest where it does not.
pub fn byte_of(number: usize) -> u8 {
    u8::try_from(number).unwrap_or(u8::MAX)
}
