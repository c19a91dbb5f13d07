// The two blocks between turns: the output's written out, the input's read on.
ghost use Rattle.std.specs.Prelude.{◌≡◌, [], ◌+◌, ◌≤◌, length, take, drop};
ghost use Rattle.session.specs.declared.held.Stage.TheVariants.{Full, Short};
ghost use Rattle.session.specs.Session.{BlockBounds, untaken};
ghost use Rattle.console.specs.Turn.{HasRoom, SameCollected, Flushed, stage_after, Exchanged};

use crate::failure::or_say_failed;
use crate::transfer::{read_some, write_out};
use session::{Session, Stage, say_bad, with_stage};

// Moves `count` bytes from `from` on to the front.
fn shift(block: &mut [u8], from: usize, count: usize)
    requires { from + count ≤ length block.old }
    ensures { take count block.new ≡ take count (drop from block.old) }
{
    block.copy_within(from..from + count, 0);
}

// Writes out what waits.
pub fn flush(rt: &HostRuntime, session: Session, output: &[u8]) -> Session
    requires { session.waiting ≤ length output.now }
    ensures { Flushed session result }
{
    let sent = write_out(rt, &output[..session.waiting]);
    match or_say_failed(rt, "standard output", sent) {
        Some(()) => Session {
            waiting: 0,
            ..session
        },
        None => with_stage(session, Stage::WriteFailed),
    }
}

// A failed read is not the input's end, and at its end nothing may be cut.
fn stage_after(got: Option<usize>, kept: usize) -> Stage
    ensures { result ≡ stage_after got kept }
{
    match (got, kept) {
        (None, _) => Stage::ReadFailed,
        (Some(0), 0) => Stage::InputEnd,
        (Some(0), _) => Stage::SaidBad,
        _ => Stage::Going,
    }
}

// Reads on behind the cut command. The session is a value and is handed back, the blocks are lent: they stay two.
pub fn refill(rt: &HostRuntime, session: Session, input: &mut [u8], output: &mut [u8]) -> Session
    requires block_bounds { BlockBounds session (length input.old) × (session.stage ≡ Short) }
    requires waiting_value { (session.waiting ≡ 0) × (300 ≤ length output.old) × HasRoom session (length input.old) }
    ensures block_bounds_2 { BlockBounds result (length input.old) × (result.waiting ≤ length output.old) × SameCollected session result }
    ensures exchanged { Exchanged (session.stage ≡ Short) (session.stage ≡ Full) (untaken session input.old) [] (untaken result input.new) (take result.waiting output.new) result.stage }
{
    let Session { at, end, .. } = session;
    let kept = end - at;
    shift(input, at, kept);
    let got = or_say_failed(rt, "standard input", read_some(rt, &mut input[kept..]));
    let next = Session {
        at: 0,
        end: kept + got.unwrap_or(0),
        ..session
    };
    match stage_after(got, kept) {
        Stage::SaidBad => say_bad(next, output),
        stage => with_stage(next, stage),
    }
}
