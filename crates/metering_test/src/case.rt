// A case is a line of 53 bytes: a letter for its kind, then three operands of 16 hexadecimal digits, each after a blank.
ghost use Rattle.std.specs.Prelude.{◌<◌};

fn digit(c: u8) -> u8
    ensures { result < 16 }
{
    if c < b'a' { c % 16 } else { (c % 16 + 9) % 16 }
}

pub fn operand(line: &[u8; 53], place: usize) -> u64
    requires { place < 3 }
{
    let start = 2 + 17 * place;
    line[start..start + 16]
        .iter()
        .fold(0, |value, c| value << 4 | u64::from(digit(*c)))
}
