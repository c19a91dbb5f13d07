// The dialogue, turn by turn.
ghost use Rattle.std.specs.Prelude.{◌≡◌, ◌⊎◌, ◌+◌, ◌≤◌, length, take};
ghost use Rattle.session.specs.declared.held.Stage.TheVariants.{Going, Full, Short};
ghost use Rattle.session.specs.Session.{HeldIn, BlockBounds, SameLent, setup_in, parts_in, untaken};
ghost use Rattle.console.specs.Turn.{dialogue_in, HasRoom, SameCollected, Exchanged, Turned, Ran, Conversed};

use crate::blocks::{flush, refill};
use session::{Lent, Session, Stage, is_going, obey_all, with_stage};

// Makes room for more commands: their lines are written out, and behind a cut one is read on.
fn exchange(rt: &HostRuntime, session: Session, input: &mut [u8], output: &mut [u8]) -> Session
    requires block_bounds { BlockBounds session (length input.old) × ((session.stage ≡ Full) ⊎ (session.stage ≡ Short)) }
    requires waiting_in_bounds { (session.waiting ≤ length output.old) × (300 ≤ length output.old) × (session.stage ≡ Short → HasRoom session (length input.old)) }
    ensures block_bounds_2 { BlockBounds result (length input.old) × (result.waiting ≤ length output.old) × SameCollected session result }
    ensures exchanged { Exchanged (session.stage ≡ Short) (session.stage ≡ Full) (untaken session input.old) (take session.waiting output.old) (untaken result input.new) (take result.waiting output.new) result.stage }
{
    let sent = flush(rt, session, &output[..]);
    match sent.stage {
        Stage::Full => with_stage(sent, Stage::Going),
        Stage::Short => refill(rt, sent, input, output),
        _ => sent,
    }
}

// One turn: all commands at hand are obeyed, and room is made for more.
fn turn(
    rt: &HostRuntime,
    session: Session,
    input: &mut [u8],
    output: &mut [u8],
    lent: &mut Lent,
) -> Session
    requires block_bounds { BlockBounds session (length input.old) × (session.stage ≡ Going) × (1 ≤ session.turns) }
    requires held { HeldIn session (length output.old) lent.old × (300 ≤ length output.old) × (2056 ≤ length input.old) }
    ensures block_bounds_2 { BlockBounds result (length input.old) × (result.turns + 1 ≡ session.turns) }
    ensures held_2 { HeldIn result (length output.old) lent.old }
    ensures same_lent { SameLent lent.old lent.new }
    ensures turned { Turned (setup_in lent.old) (dialogue_in session input.old output.old lent.old) (dialogue_in result input.new output.new lent.new) }
{
    let told = obey_all(
        Session {
            turns: session.turns - 1,
            ..session
        },
        &input[..],
        output,
        lent,
    );
    match told.stage {
        Stage::SaidBad => told,
        _ => exchange(rt, told, input, output),
    }
}

// The input ends the loop, so no range counts it.
fn take_turns(rt: &HostRuntime, input: &mut [u8], output: &mut [u8], lent: &mut Lent) -> Session
    requires { (300 ≤ length output.old) × (2056 ≤ length input.old) }
    ensures waiting_in_bounds { result.waiting ≤ length output.old }
    ensures same_lent { SameLent lent.old lent.new }
    ensures ran { Ran (setup_in lent.old) (parts_in lent.old) (dialogue_in result input.new output.new lent.new) }
{
    let mut session = Session {
        at: 0,
        end: 0,
        category_bytes: 0,
        day_types: 0,
        waiting: 0,
        turns: u64::MAX,
        stage: Stage::Going,
    };
    'turns: while session.turns > 0 && is_going(session.stage) {
        session = turn(rt, session, input, output, lent);
    }
    session
}

// The whole dialogue. As many 11s and 12s are collected as the first two parts have room for. Each
// block has room for the longest command, 2,056 bytes, and for a line. Answers why it ended.
pub fn converse(rt: &HostRuntime, lent: &mut Lent) -> Stage
    ensures same_lent { SameLent lent.old lent.new }
    ensures conversed { Conversed (setup_in lent.old) (parts_in lent.old) (parts_in lent.new) result }
{
    let mut input = [0u8; 65536];
    let mut output = [0u8; 65536];
    let session = take_turns(rt, &mut input, &mut output, lent);
    match session.stage {
        Stage::SaidBad => flush(rt, session, &output).stage,
        stage => stage,
    }
}
