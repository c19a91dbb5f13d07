// The engine's face: all that its users call and are answered with. No call has a `requires`; each contract stands with its call.
#![tactic(auto)]

pub use band::search_band;
pub use day_reads::{read_coverage, read_totals};
pub use entries::cell::{Cell, Flag, cell_of_entry, letter};
pub use fill::{fill, fill_opted_out};
pub use net::read_net;
pub use opening::open;
pub use reads::read_cell;
pub use reads::row::read_row;
pub use reception::receive;
pub use registration::register;
pub use run::preview::preview;
pub use run::run;
pub use settings::writing::OpeningTerms;
pub use store::outcome::{Band, Coverage, Net, Totals};
pub use store::refusal::{Check, Refusal};
