// The commands of a block of input, obeyed one after the other.
ghost use Rattle.std.specs.Prelude.{◌≡◌, true, false, ◌++◌, ◌+◌, ◌≤◌, ◌<◌, length, take};
ghost use Rattle.commands.specs.Program.{bad_line};
ghost use Rattle.session.specs.declared.held.Stage.TheVariants.{Going, SaidBad};
ghost use Rattle.session.specs.Session.{HeldIn, BlockBounds, SameInput, SameLent, with_waiting, staged, is_going, setup_in, state_in, untaken, Obeyed};

use crate::command::obey;
use crate::held::{Lent, Session, Stage};
use input::extent::{Extent, command_extent};
use output::append::append;

pub fn is_going(stage: Stage) -> bool
    ensures { result ≡ is_going stage }
{
    matches!(stage, Stage::Going)
}

pub fn with_stage(session: Session, stage: Stage) -> Session
    ensures { result ≡ staged session stage }
{
    Session { stage, ..session }
}

// The last line.
pub fn say_bad(session: Session, output: &mut [u8]) -> Session
    requires { session.waiting + 300 ≤ length output.old }
    ensures value { result ≡ staged (with_waiting session result.waiting) SaidBad }
    ensures waiting_in_bounds { result.waiting ≤ length output.old }
    ensures output_after { take result.waiting output.new ≡ take session.waiting output.old ++ bad_line }
{
    Session {
        waiting: append(output, session.waiting, b"bad\n"),
        stage: Stage::SaidBad,
        ..session
    }
}

// The next command, where its line has room: each is shorter than 300 bytes.
fn obey_next(session: Session, input: &[u8], output: &mut [u8], lent: &mut Lent) -> Session
    requires block_bounds { BlockBounds session (length input.now) × (session.stage ≡ Going) }
    requires held { HeldIn session (length output.old) lent.old }
    ensures held_2 { HeldIn result (length output.old) lent.old }
    ensures same_input { SameInput session result × BlockBounds result (length input.now) }
    ensures at_lt_at { is_going result.stage ≡ true → session.at < result.at }
    ensures same_lent { SameLent lent.old lent.new }
    ensures obeyed { Obeyed (setup_in lent.old) (state_in session lent.old) (untaken session input.now) (take session.waiting output.old) (state_in result lent.new) (untaken result input.now) (take result.waiting output.new) (length output.old) result.stage }
{
    if output.len() - session.waiting < 300 {
        return with_stage(session, Stage::Full);
    }
    let Session { at, end, .. } = session;
    let category_room = 8 <= lent.category_records.len() - session.category_bytes;
    let day_type_room = session.day_types < lent.day_types.len();
    match command_extent(&input[at..end], category_room, day_type_room) {
        Extent::Whole(count) => {
            let behind = at + count;
            obey(
                Session {
                    at: behind,
                    ..session
                },
                &input[at..behind],
                output,
                lent,
            )
        }
        Extent::Cut => with_stage(session, Stage::Short),
        Extent::Bad => say_bad(session, output),
    }
}

// All commands at hand, as far as their lines have room. What stands in the block ends the loop, so no range counts it.
pub fn obey_all(session: Session, input: &[u8], output: &mut [u8], lent: &mut Lent) -> Session
    requires block_bounds { BlockBounds session (length input.now) × (session.stage ≡ Going) }
    requires held { HeldIn session (length output.old) lent.old }
    ensures held_2 { HeldIn result (length output.old) lent.old }
    ensures same_input { SameInput session result × BlockBounds result (length input.now) }
    ensures stage_value { is_going result.stage ≡ false }
    ensures same_lent { SameLent lent.old lent.new }
    ensures obeyed { Obeyed (setup_in lent.old) (state_in session lent.old) (untaken session input.now) (take session.waiting output.old) (state_in result lent.new) (untaken result input.now) (take result.waiting output.new) (length output.old) result.stage }
{
    let mut next = session;
    'commands: while is_going(next.stage) {
        next = obey_next(next, input, output, lent);
    }
    next
}
