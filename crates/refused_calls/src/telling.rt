//! What is printed of a call. What can't be printed is missed by whoever reads it, and stops nothing here.

use std::fmt::Debug;
use std::io;

/// The call comes next.
pub fn begins<R: Print>(rt: &R) {
    let _ = println!(rt; "begins");
}

/// The call was made.
pub fn ends<R: Print>(rt: &R) {
    let _ = println!(rt; "ends");
}

/// What the call works on is not there.
pub fn unprepared<R: Print>(rt: &R) -> io::Result<()> {
    println!(rt; "unprepared")
}

/// A name for what a call answered, and what it left.
pub fn tell_left<R: Print + AllocGlobal>(rt: &R, name: &str, left: &[u8]) {
    if let Ok(digits) = hex::encode(rt.alloc(), left) {
        let _ = println!(rt; "{name} {digits}");
    }
}

/// Why a call was refused, and what it left.
pub fn tell_fault<R: Print + AllocGlobal, E: Debug>(rt: &R, fault: &E, left: &[u8]) {
    if let Ok(name) = format!(in rt.alloc(); "{fault:?}") {
        tell_left(rt, name.as_str(), left);
    }
}

/// The end of a call that answers nothing where it is done, and what it left.
pub fn tell_end<R: Print + AllocGlobal, E: Debug + Drop>(rt: &R, came: Result<(), E>, left: &[u8]) {
    match came {
        Ok(()) => tell_left(rt, "Ok", left),
        Err(fault) => tell_fault(rt, &fault, left),
    }
}
