// A line on standard error for a read or write that failed.
ghost use Rattle.std.specs.Prelude.{◌≡◌};
ghost use Rattle.std.specs.Result.{result_ok};

use std::io::{Cursor, Error, Result, Write};

// What came of it, or none where it failed, which is said.
pub fn or_say_failed<T>(rt: &HostRuntime, what: &str, done: Result<T>) -> Option<T>
    ensures { result ≡ result_ok done }
{
    match done {
        Ok(value) => Some(value),
        Err(error) => {
            say_failed(rt, what, &error);
            None
        }
    }
}

// What failed, and the system's words for it without the number that std writes behind them.
fn say_failed(rt: &HostRuntime, what: &str, error: &Error) {
    let mut text = Cursor::new([0u8; 128]);
    let _ = write!(text, "{error}");
    let bytes = text.into_inner();
    let words = match str::from_utf8(&bytes) {
        Ok(all) => words_of(all),
        Err(_) => "",
    };
    let _ = eprintln!(rt; "{what}: {words}");
}

fn words_of(text: &str) -> &str {
    match text.rsplit_once(" (os error ") {
        Some((words, _)) => words,
        None => text.trim_end_matches('\0'),
    }
}
