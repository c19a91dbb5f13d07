// Reads and writes that move something, tried again where the system asks for it.
ghost use Rattle.std.specs.Prelude.{◌≤◌, IfErr, length};
ghost use Rattle.std.specs.Io.{ReadsAtMost, WritesAtMost};

use std::io::{Error, ErrorKind, Read, Result, Write};
use std::thread::yield_now;

// Whether a signal came between, or nothing could be moved yet.
fn moves_later(error: &Error) -> bool {
    matches!(error.kind(), ErrorKind::Interrupted | ErrorKind::WouldBlock)
}

// How many bytes came: 0 at the input's end. The tries bound the loop; they outlast any wait.
pub fn read_some(rt: &HostRuntime, block: &mut [u8]) -> Result<usize>
    ensures { ReadsAtMost result block.new }
{
    let mut input = rt.stdin();
    for _ in 0..u64::MAX {
        match input.read(block) {
            Err(error) if moves_later(&error) => yield_now(),
            moved => return moved,
        }
    }
    Err(Error::from(ErrorKind::WouldBlock))
}

// How many bytes went.
fn write_some(rt: &HostRuntime, text: &[u8]) -> Result<usize>
    ensures { WritesAtMost result text.now }
{
    let mut output = rt.stdout();
    for _ in 0..u64::MAX {
        match output.write(text) {
            Err(error) if moves_later(&error) => yield_now(),
            moved => return moved,
        }
    }
    Err(Error::from(ErrorKind::WouldBlock))
}

// Each write goes on where the last one stopped. No bytes at all need none, so that none fails.
pub fn write_out(rt: &HostRuntime, text: &[u8]) -> Result<()>
    ensures { IfErr result (λ _. 1 ≤ length text.now) }
{
    let mut rest = text;
    while !rest.is_empty() {
        match write_some(rt, rest)? {
            0 => return Err(Error::from(ErrorKind::WriteZero)),
            moved => rest = &rest[moved..],
        }
    }
    Ok(())
}
