// A command obeyed.
ghost use Rattle.std.specs.Prelude.{◌≡◌, ◌++◌, ◌+◌, ◌≤◌, length, take, get_or};
ghost use Rattle.input.specs.Form.{Command};
ghost use Rattle.commands.specs.Commands.{line_for, state_after};
ghost use Rattle.session.specs.Session.{HeldIn, Room, SamePlace, SameLent, state_in};

use crate::held::{Lent, Session};
use output::append::append;

// Its line goes behind what waits.
#[tactic(auto, using(commands::proofs::Laws::some_there, commands::proofs::Laws::opening_there, commands::proofs::Laws::category_there, commands::proofs::Laws::day_type_there))]
pub fn obey(session: Session, command: &[u8], output: &mut [u8], lent: &mut Lent) -> Session
    requires command { Command command.now × (session.waiting + 300 ≤ length output.old) }
    requires held { HeldIn session (length output.old) lent.old }
    requires room { Room session (get_or command.now 0 0) (length lent.old.category_records.now) (length lent.old.day_types.now) }
    ensures held_2 { HeldIn result (length output.old) lent.old }
    ensures same_place { SamePlace session result }
    ensures same_lent { SameLent lent.old lent.new }
    ensures state_after { state_in result lent.new ≡ state_after lent.old.capacity (state_in session lent.old) command.now }
    ensures output_after { take result.waiting output.new ≡ take session.waiting output.old ++ line_for lent.old.capacity (state_in session lent.old) command.now }
{
    let mut next = session;
    match command[0] {
        0x11 => {
            next.category_bytes = append(
                lent.category_records,
                session.category_bytes,
                &command[1..9],
            );
        }
        0x12 => {
            next.day_types = append(lent.day_types, session.day_types, &command[1..2]);
        }
        0x10 => {
            let capacity = lent.capacity;
            // A part passed as `&` beside others as `&mut` is borrowed by itself first.
            let category_records = &mut *lent.category_records;
            let category_records = &*category_records;
            let day_types = &mut *lent.day_types;
            let day_types = &*day_types;
            next.waiting = commands::open(
                command,
                &category_records[..session.category_bytes],
                &day_types[..session.day_types],
                lent.settings,
                lent.meters,
                lent.readings,
                lent.cells,
                lent.days,
                capacity,
                output,
                session.waiting,
            );
            next.category_bytes = 0;
            next.day_types = 0;
        }
        _ => {
            let settings = &mut *lent.settings;
            next.waiting = commands::ask(
                command,
                &settings[..],
                lent.meters,
                lent.readings,
                lent.cells,
                lent.days,
                output,
                session.waiting,
            );
        }
    }
    next
}
