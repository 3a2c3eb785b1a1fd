//! The words of 64 bytes: their classes, escapes and strings.

use crate::trial::Trial;
use byte_masks::{classify, tail};
use escape_runs::escaped;
use string_spans::{Spans, prefix_parity, spans};

/// The trials.
pub fn trials() -> [(&'static str, Trial); 3] {
    [
        ("classes", classes()),
        ("runs", runs()),
        ("interiors", interiors()),
    ]
}

fn classes() -> Trial {
    let members = classify(tail(b"{\"a\": [1]}"));
    let all = classify(tail(b"\x00\x1f\x20\x22\x5c\x7f\x80\xff"));
    // Control bytes that the look-up takes for a comma and a colon.
    let alike = classify(tail(b"\x0c\x1a,:"));
    Trial::of(&[
        members.quote == 0x0a,
        members.op == 0x351,
        members.blank == 0xffff_ffff_ffff_fc20,
        members.backslash == 0,
        members.control == 0,
        all.control == 3,
        all.quote == 8,
        all.backslash == 0x10,
        all.op == 0,
        all.blank == 0xffff_ffff_ffff_ff04,
        alike.op == 0xc,
    ])
}

fn runs() -> Trial {
    Trial::of(&[
        escaped(7, false) == (0xa, false),
        escaped(0x8000_0000_0000_0000, false) == (0, true),
        escaped(1, true) == (1, false),
        escaped(0xffff_ffff_ffff_ffff, false) == (0xaaaa_aaaa_aaaa_aaaa, false),
        escaped(0xffff_ffff_ffff_ffff, true) == (0x5555_5555_5555_5555, true),
        escaped(0, true) == (1, false),
    ])
}

fn of(interior: u64, opening: u64, closing: u64, inside: bool) -> Spans {
    Spans {
        interior,
        opening,
        closing,
        inside,
    }
}

fn interiors() -> Trial {
    Trial::of(&[
        prefix_parity(0xa) == 6,
        spans(0xa, false) == of(4, 2, 8, false),
        spans(0, true) == of(0xffff_ffff_ffff_ffff, 0, 0, true),
        spans(0x8000_0000_0000_0001, false)
            == of(0x7fff_ffff_ffff_fffe, 1, 0x8000_0000_0000_0000, false),
        spans(1, true) == of(0, 0, 1, false),
    ])
}
