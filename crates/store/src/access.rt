// One entry of a part, by its place as a u64, so that no caller casts.
ghost use Rattle.std.specs.Prelude.{◌≡◌, ◌<◌, length, get_or, set};

pub fn entry_at(part: &[u64], i: u64) -> u64
    requires { i < length part.now }
    ensures { result ≡ get_or part.now i 0 }
{
    part[i as usize]
}

pub fn put_entry(part: &mut [u64], i: u64, value: u64)
    requires { i < length part.old }
    ensures { part.new ≡ set part.old i value }
{
    part[i as usize] = value;
}
