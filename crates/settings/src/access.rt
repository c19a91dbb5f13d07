// One byte of a part or a body, by its place as a u64, so that no caller casts. `store` has the same of an entry: a generic one would be no
// shorter, as this widens what it reads.
ghost use Rattle.std.specs.Prelude.{◌<◌, length};
ghost use Rattle.settings.specs.Access.{Byte};

pub fn byte_at(part: &[u8], i: u64) -> u64
    requires { i < length part.now }
    ensures { Byte part.now i result }
{
    u64::from(part[i as usize])
}
