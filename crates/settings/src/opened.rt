// Settings that can be read: opened, and as long as their own numbers ask.
ghost use Rattle.std.specs.Prelude.{◌≡◌, true, false, MatchOption};
ghost use Rattle.ledger.specs.Store.{settings_ready};

use crate::header::settings_ready;

// The bytes of such settings. What reads them is its methods, in the modules `header`, `category`, `members` and `ready`.
// That a date or a category is one of theirs stays a clause: it ties an argument to the settings, and each call's checks give it.
#[derive(Clone, Copy)]
pub struct Settings<'a> {
    pub bytes: &'a [u8],
    ghost ready: { settings_ready bytes.now ≡ true },
}

impl<'a> Settings<'a> {
    pub fn of(bytes: &'a [u8]) -> Option<Settings<'a>>
        ensures { MatchOption result (settings_ready bytes.now ≡ false) (λ s. s.bytes.now ≡ bytes.now) }
    {
        if !settings_ready(bytes) {
            return None;
        }
        Some(Settings { bytes })
    }
}
