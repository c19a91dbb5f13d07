// Putting text behind what a buffer already holds.
// The buffer and how much of it is used stay two: both are a dialogue's fixed memory, which others lend (`converse`). A line is written where it
// stands: as an `ArrayVec` that each call handed back it was copied from function to function, for four times the time of a short answer.
ghost use Rattle.std.specs.Prelude.{◌≡◌, [], ◌∷◌, ◌+◌, ◌≤◌, ◌<◌, length, take, drop};
ghost use Rattle.output.specs.Text.{Appended, decimal_text, thousandths, number_word, energy_word, signed_word, read_back};

pub fn append(out: &mut [u8], at: usize, text: &[u8]) -> usize
    requires { at + length text.now ≤ length out.old }
    ensures { Appended out.old at out.new result text.now }
{
    let end = at + text.len();
    out[at..end].copy_from_slice(text);
    end
}

pub fn append_byte(out: &mut [u8], at: usize, byte: u8) -> usize
    requires { at < length out.old }
    ensures { Appended out.old at out.new result (byte ∷ []) }
{
    out[at] = byte;
    at + 1
}

// The number's digits.
fn append_decimal(out: &mut [u8], at: usize, number: u64) -> usize
    requires { at + 20 ≤ length out.old }
    ensures appended { Appended out.old at out.new result (decimal_text number) }
    ensures upper_bound { result ≤ at + 20 }
{
    let mut digits = [0u8; 20];
    let count = io::decimal(number, &mut digits);
    append(out, at, &digits[..count])
}

// A blank and the number.
pub fn append_number(out: &mut [u8], at: usize, number: u64) -> usize
    requires { at + 21 ≤ length out.old }
    ensures appended { Appended out.old at out.new result (number_word number) }
    ensures upper_bound { result ≤ at + 21 }
{
    let next = append_byte(out, at, b' ');
    append_decimal(out, next, number)
}

// A blank and the number with its sign.
pub fn append_signed(out: &mut [u8], at: usize, number: i64) -> usize
    requires { at + 22 ≤ length out.old }
    ensures appended { Appended out.old at out.new result (signed_word number) }
    ensures upper_bound { result ≤ at + 22 }
{
    let digits = number.unsigned_abs();
    if number < 0 {
        let next = append(out, at, b" -");
        return append_decimal(out, next, digits);
    }
    append_number(out, at, digits)
}

// The last three digits of the number.
fn append_thousandths(out: &mut [u8], at: usize, number: u64) -> usize
    requires { at + 3 ≤ length out.old }
    ensures { Appended out.old at out.new result (thousandths number) }
{
    let hundreds = 48 + (number / 100 % 10) as u8;
    let tens = 48 + (number / 10 % 10) as u8;
    let ones = 48 + (number % 10) as u8;
    append(out, at, &[hundreds, tens, ones])
}

// A blank and the energy in kWh with three decimals, from Wh: it reads back as the Wh.
#[tactic(auto, unfolding(crate::specs::Text::energy_text))]
pub fn append_energy(out: &mut [u8], at: usize, energy: u64) -> usize
    requires { at + 25 ≤ length out.old }
    ensures appended { Appended out.old at out.new result (energy_word energy) }
    ensures out_after { read_back (drop (at + 1) (take result out.new)) ≡ energy }
    ensures upper_bound { result ≤ at + 25 }
{
    let whole = append_number(out, at, energy / 1000);
    let point = append_byte(out, whole, b'.');
    append_thousandths(out, point, energy)
}
